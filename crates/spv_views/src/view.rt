//! How a module is written for people.
use thiserror::Error;

/// What is written of a module.
#[derive(Clone, Copy)]
pub enum View<'a> {
    /// Its text with comments, in colour or without.
    Text { color: bool },
    /// The same as a page of HTML, under a title.
    Page { title: &'a str },
    /// The graph of its calls, or of the blocks of a function, in the language of graphviz.
    Graph,
}

/// Why nothing is written of a stream of bytes, or not the whole.
#[derive(Clone, Copy, Debug, PartialEq, Eq, Error)]
pub enum ViewError {
    /// A read or a write failed.
    #[error("a read or a write failed")]
    Failed,
    /// The function that is asked for is none of the module: its id is the result of none, or its name that of none.
    #[error("the id is the result of no function, or the name that of none")]
    NoFunction,
    /// The name of the function that is asked for is that of several.
    #[error("several functions have the name")]
    SeveralFunctions,
    /// A growth of memory was refused.
    #[error("out of memory")]
    Memory,
}
