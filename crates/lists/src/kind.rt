// The six kinds of change, as `tables::act` takes them. No other number is a kind.
pub const TAKE: u8 = 1;

pub const PUT_FIRST: u8 = 2;

pub const PUT_AFTER: u8 = 3;

pub const WRITE: u8 = 4;

pub const DELETE_BLOCK: u8 = 5;

pub const DELETE_LIST: u8 = 6;
