//! The calls of spv_words, spv_builtin, spv_inst, spv_printer and spv_parser, each made once with ample
//! memory, and with growths refused. What each line of a text is read as and shown as, and what a grammar file is
//! refused with, is shown by the program.
#![tactic(auto)]

#[cfg(test)]
mod decoding;
#[cfg(test)]
mod encoding;
#[cfg(test)]
mod grammar_texts;
#[cfg(test)]
mod messages;
#[cfg(test)]
mod refused;
#[cfg(test)]
mod words;
