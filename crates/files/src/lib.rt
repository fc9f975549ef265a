// What the programs ask of the system: arguments and messages, bytes moved whole, a file read whole and replaced whole. A failure
// is never taken for an end, and where a function answers that it failed, the error is that of the call that did.
#![tactic(auto)]

pub mod arguments;
pub mod found;
pub mod input;
pub mod message;
pub mod path;
pub mod save;
pub mod status;
pub mod transfer;
