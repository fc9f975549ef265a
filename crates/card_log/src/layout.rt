// The card's layout.
//
//   a segment: SEGMENT bytes            offset
//   LogEntry::SLOTS slots of SLOT bytes 0, 256, .., 3328
//   the count byte                      COUNT_AT
//   ENTRY_BYTES bytes of entries        ENTRIES_AT

pub const SEGMENT: usize = 4096;

pub const SLOT: usize = 256;

pub const COUNT_AT: usize = 3584;

pub const ENTRIES_AT: usize = 3585;

pub const ENTRY_BYTES: usize = 511;
