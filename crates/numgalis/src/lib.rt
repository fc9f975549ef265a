// The library that a firmware team links: every call as a function of C. A slice is a pointer and its length, a number a size_t; the answer's number is
// returned, and results go where the caller says: 0 on a refusal. Any bytes, numbers and lengths may come: no function here requires anything.
#![tactic(auto)]

pub mod card;
pub mod changes;
pub mod looks;
pub mod stores;
mod tell;
pub mod units;
