// The questions that every call asks first, of lengths, record and card, and the tables of a view. No table outlives a call.
#![tactic(auto)]

pub mod examine;
pub mod give_up;
mod head;
pub mod holders;
pub mod journal;
pub mod lengths;
mod listed;
pub mod look;
mod numbers;
mod queue;
pub mod units;
