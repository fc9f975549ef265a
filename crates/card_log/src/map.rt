// An entry's map: a bit for each field that has a byte, and two marks that have none.
ghost use Rattle.std.specs.Prelude.{◌≡◌, cond, ◌+◌, ◌/◌, ◌%◌, ◌<◌, leb};
ghost use Rattle.card_log.specs.Entry.{size_of, race_bit};

pub const BLOCK: u8 = 1 << 0;

pub const LIST: u8 = 1 << 1;

pub const PREDECESSOR: u8 = 1 << 2;

pub const SLOT: u8 = 1 << 3;

pub const COUNT: u8 = 1 << 4;

pub const REMOVAL: u8 = 1 << 5;

pub const RACE: u8 = 1 << 6;

// The number of the bit that marks a member.
pub const MEMBER: u32 = 7;

// The fields that have a byte.
pub const FIELDS: u8 = BLOCK | LIST | PREDECESSOR | SLOT | COUNT | RACE;

// The maps of the kinds, without the mark of a member.
pub const TAKE: u8 = LIST;

pub const PUT_FIRST: u8 = BLOCK | LIST;

pub const PUT_AFTER: u8 = BLOCK | LIST | PREDECESSOR;

pub const WRITE: u8 = BLOCK | SLOT;

pub const RACED: u8 = WRITE | RACE;

pub const DELETE_BLOCK: u8 = BLOCK | REMOVAL;

pub const DELETE_LIST: u8 = LIST | REMOVAL;

pub const COMMIT: u8 = COUNT;

// The length of an entry: its map, and one byte for each field.
pub fn length(map: u8) -> usize
    ensures { result ≡ size_of map }
{
    1 + u8::count_ones(map & FIELDS) as usize
}

// The number of slots of an entry: one if it has that field.
pub fn slots(map: u8) -> usize
    ensures { result ≡ map / 8 % 2 }
{
    u8::count_ones(map & SLOT) as usize
}

// The map of a write: race 0 is written without its bit.
pub fn of_write(race: u8) -> u8
    ensures { result ≡ 9 + race_bit race }
{
    if race == 0 { WRITE } else { RACED }
}

// The map of a change: the bits of its kind, and whether it is a member.
pub fn marked(kind: u8, member: bool) -> u8
    requires { kind < 128 }
    ensures { result ≡ cond member (128 + kind) kind }
{
    kind | (member as u8) << MEMBER
}

// Does the map have the mark of a member?
pub fn is_member(map: u8) -> bool
    ensures { result ≡ leb 128 map }
{
    128 <= map
}
