// The calls. Each is lent the card, both data buffers and the record, asks its questions in order, and performs what the definition `perform` says.
#![tactic(auto)]

mod add;
pub mod begin;
mod check;
pub mod conflicts;
mod delete;
pub mod delete_block;
pub mod delete_list;
mod drain;
pub mod end;
mod enter;
pub mod flush;
pub mod format;
mod give;
pub mod inventory;
pub mod mount;
pub mod new_block;
pub mod new_list;
pub mod next;
pub mod page;
mod ranges;
pub mod read;
mod renew;
pub mod write;
