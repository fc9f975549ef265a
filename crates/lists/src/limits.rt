// Blocks are 1 to BLOCKS, lists 1 to LISTS.
pub const BLOCKS: u8 = 64;

pub const LISTS: u8 = 16;
