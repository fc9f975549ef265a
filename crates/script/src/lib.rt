// The shell's language: a line of a script taken apart, and the lines that the commands print put together.
#![tactic(auto)]

pub mod arguments;
pub mod command;
pub mod lines;
pub mod parse;
pub mod replies;
