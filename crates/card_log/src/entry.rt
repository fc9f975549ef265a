// A log entry, as the working record holds it and as the card's bytes say it.
use lists::limits;

// The seven kinds of entry. Whether a change is plain or a member of a unit stands beside it.
#[derive(Clone, Copy)]
pub enum LogEntry {
    Take {
        list: u8,
    },
    PutFirst {
        block: u8,
        list: u8,
    },
    PutAfter {
        block: u8,
        list: u8,
        predecessor: u8,
    },
    Write {
        block: u8,
        slot: u8,
        race: u8,
    },
    DeleteBlock {
        block: u8,
    },
    DeleteList {
        list: u8,
    },
    Commit {
        count: u8,
    },
}

impl LogEntry {
    // Blocks are 1 to BLOCKS, lists 1 to LISTS, slots 0 to SLOTS - 1, a commit's count 0 to MEMBERS, races 0 to RACES; 0
    // is none.
    pub const BLOCKS: u8 = limits::BLOCKS;

    pub const LISTS: u8 = limits::LISTS;

    pub const SLOTS: u8 = 14;

    pub const MEMBERS: u8 = 15;

    pub const RACES: u8 = 24;
}
