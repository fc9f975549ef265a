// A state of the logical disk: lists taken, their blocks in order, and each block's content.
// What a state is and how it changes stands in specs/; `tables` holds one as linked lists in lent arrays.
#![tactic(auto)]

pub mod first;
pub mod kind;
pub mod limits;
pub mod tables;
