//! A run on several files in memory, a text that fails, and what errors are shown as: each call made once with ample
//! memory, and the one that makes a text also with each growth refused. What the commands answer, also where reads,
//! writes and growths are refused, is shown by the program.
#![tactic(auto)]

#[cfg(test)]
mod each;
#[cfg(test)]
mod messages;
#[cfg(test)]
mod texts;
