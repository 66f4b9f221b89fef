//! The calls of spv_explain, the views of a module, and why a text fails: each call made once with ample memory, and
//! those that make a text also with each growth refused.
#![tactic(auto)]

#[cfg(test)]
mod lines;
#[cfg(test)]
mod reasons;
#[cfg(test)]
mod views;
