// Text in lent buffers: what the programs print is put together here, and the lines that they read are taken apart.
#![tactic(auto)]

pub mod adler;
pub mod decimal;
pub mod hex;
pub mod line;
pub mod put;
pub mod word;
