//! Each growth of memory refused in turn: the call answers its own error for lack of memory.
//! With none refused it answers rightly.

mod grammars;
mod modules;
mod pushes;
