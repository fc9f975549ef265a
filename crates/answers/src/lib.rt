// What the calls answer. The definition `Answers` gives the number and the values of each case.
#![tactic(auto)]

ghost use Rattle.std.specs.Prelude.{◌≡◌, IsTrue, IsFalse, MatchResult};
ghost use Rattle.answers.specs.Answers.{number};
ghost use Rattle.answers.specs.declared.MountRefusal.TheVariants.{Refused};

// The questions, as what a no to each means.
#[derive(Clone, Copy, Debug, PartialEq, Eq)]
pub enum Refusal {
    WrongLength,
    LogFault,
    RecordUnsound,
    StreamClosed,
    OutOfRange,
    UnitOpen,
    ListNotTaken,
    BlockNotPlaced,
    PredecessorElsewhere,
    NoNumberFree,
    JournalFull,
    Conflict,
    QueueFull,
    BufferTooShort,
    Unwritten,
}

// The question's number.
impl From<Refusal> for u64 {
    ghost from_gives = { λ x n. n ≡ number x };

    #[tactic(auto, unfolding(crate::specs::Answers::number))]
    fn from(x: Refusal) -> u64 {
        match x {
            Refusal::WrongLength => 1,
            Refusal::LogFault => 2,
            Refusal::RecordUnsound => 3,
            Refusal::StreamClosed => 4,
            Refusal::OutOfRange => 5,
            Refusal::UnitOpen => 6,
            Refusal::ListNotTaken => 7,
            Refusal::BlockNotPlaced => 8,
            Refusal::PredecessorElsewhere => 9,
            Refusal::NoNumberFree => 10,
            Refusal::JournalFull => 11,
            Refusal::Conflict => 12,
            Refusal::QueueFull => 13,
            Refusal::BufferTooShort => 14,
            Refusal::Unwritten => 15,
        }
    }
}

// Mounting: a fault is refusal 2 with its segment and entry.
#[derive(Clone, Copy, Debug, PartialEq, Eq)]
pub enum MountRefusal {
    Fault { segment: usize, entry: usize },
    Refused(Refusal),
}

impl From<Refusal> for MountRefusal {
    ghost from_gives = { λ x r. r ≡ Refused x };

    fn from(x: Refusal) -> MountRefusal {
        MountRefusal::Refused(x)
    }
}

// How a flush ended: the queue is empty, the card is full, or the allowance is spent.
#[derive(Clone, Copy, Debug, PartialEq, Eq)]
pub enum Ending {
    Drained,
    Full,
    Spent,
}

// A flush: the stores done, and its ending.
#[derive(Clone, Copy, Debug, PartialEq, Eq)]
pub struct Flushed {
    pub stores: usize,
    pub ending: Ending,
}

// A call that returns nothing but its acceptance.
pub type Reply = Result<(), Refusal>;

// A call that returns a number: one given, a block, a count.
pub type NumberReply = Result<usize, Refusal>;

// Reading: the race that the block was written for, 0 for none.
pub type ReadReply = Result<u8, Refusal>;

pub type MountReply = Result<(), MountRefusal>;

pub type FlushReply = Result<Flushed, Refusal>;

// A question: answered no, it refuses the call.
pub fn ask(yes: bool, no: Refusal) -> Reply
    ensures { MatchResult result (λ _. IsTrue yes) (λ x. (x ≡ no) × IsFalse yes) }
{
    if yes { Ok(()) } else { Err(no) }
}
