// The archive that others link: a static library is no library to Rattle, so each function of `numgalis` stands here once more, with its clauses, and calls it.
#![tactic(auto)]

pub mod card;
pub mod changes;
pub mod looks;
pub mod stores;
pub mod units;
