// A card that is not memory. A driver asks which stores a call would make on the card, makes them on its device in their order, one by one, and then
// makes the call on its copy in memory. A power cut between two of them leaves the device as `CutAfter` and `CutFormat` say.
#![tactic(auto)]

pub mod flush;
pub mod format;
mod queue;
mod word;
