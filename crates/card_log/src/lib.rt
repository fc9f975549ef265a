// The log on the card: entries and their bytes, the layout of segments, the reader's walk, formatting and the stores of a flush.
#![tactic(auto)]

pub mod cell;
pub mod content;
pub mod copy;
pub mod encode;
pub mod entry;
pub mod feed;
pub mod head;
pub mod layout;
pub mod legal;
pub mod location;
pub mod map;
pub mod mount;
pub mod parse;
pub mod place;
pub mod reader;
pub mod store;
pub mod walk;
