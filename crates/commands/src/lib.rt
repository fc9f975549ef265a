// The commands of a script: what each one does to the card, the data buffers, the record and what is lent, and what it prints. `docs/SHELL.md` has the language.
#![tactic(auto)]

mod call;
mod cutting;
mod look;
pub mod power;
pub mod run;
mod show;
pub mod state;
mod view;
