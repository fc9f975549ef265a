// The logical disk above the log: the working record, the views and units, the calls.
#![tactic(auto)]

pub mod change;
pub mod free;
pub mod record;
