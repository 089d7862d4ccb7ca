// The page store's state and the answers of its calls, as declared types, with the all-zero state and the number of a refusal. What each
// call promises stands in specs/, one file to a call; the crash theorem is proved from these promises alone in proofs/Demand3.antt.
// No call is written here.
#![tactic(auto)]

ghost use Rattle.std.specs.Prelude.{◌≡◌, ◌≤◌};
ghost use Rattle.promises.specs.Answers.{number_of};
ghost use Rattle.promises.specs.States.{all_zero_state, set_cleaning};
ghost use Rattle.promises.specs.Open.{opened_state};

// What a frame holds: a dirty page and its first group. First group 0: the frame is free.
#[derive(Clone, Copy)]
pub struct Dirty {
    pub page: u16,
    pub first: u64,
}

// An update that waits for its commit. Its bytes are the first of its staging area.
#[derive(Clone, Copy)]
pub struct Staged {
    pub page: u16,
    pub offset: u16,
    pub length: u16,
    pub area: u8,
}

// A cleaning is idle, or at its first, second or third store of a named page.
#[derive(Clone, Copy)]
pub enum Cleaning {
    Idle,
    First(u16),
    Second(u16),
    Third(u16),
}

// All that the store keeps between calls, apart from the four areas.
#[derive(Clone, Copy)]
pub struct State {
    // the counts of home's pages, of the log's slots and of frames
    pub pages: usize,
    pub slots: usize,
    pub frames: usize,
    // the sequence after the newest block
    pub next: u64,
    // the last committed ticket
    pub ticket: u64,
    // the dirty pages, each in its frame's place
    pub dirty: [Dirty; 32],
    // the staged updates: those of the queued groups, oldest first, then those of the open transaction
    pub staged: [Staged; 32],
    // how many updates each queued group has, oldest first
    pub groups: [u8; 32],
    // how many groups are queued
    pub queued: usize,
    // how many updates of the oldest queued group are stored
    pub stored: usize,
    // how many updates the open transaction reserved; 0: none is open
    pub reserved: usize,
    // how many updates the open transaction has described
    pub described: usize,
    pub cleaning: Cleaning,
    // whether this is a copy's state; else it is a desk's
    pub copy: bool,
}

impl State {
    // A desk's state with nothing queued, nothing open and no cleaning.
    pub fn idle(
        pages: usize,
        slots: usize,
        frames: usize,
        next: u64,
        ticket: u64,
        dirty: [Dirty; 32],
    ) -> State
        ensures { result ≡ opened_state pages slots frames next ticket dirty }
    {
        State {
            pages,
            slots,
            frames,
            next,
            ticket,
            dirty,
            staged: [Staged {
                page: 0,
                offset: 0,
                length: 0,
                area: 0,
            }; 32],
            groups: [0; 32],
            queued: 0,
            stored: 0,
            reserved: 0,
            described: 0,
            cleaning: Cleaning::Idle,
            copy: false,
        }
    }

    // The all-zero state.
    pub fn all_zero() -> State
        ensures { result ≡ all_zero_state }
    {
        let none = [Dirty { page: 0, first: 0 }; 32];
        State::idle(0, 0, 0, 0, 0, none)
    }

    // The state with another cleaning.
    pub fn with_cleaning(self, cleaning: Cleaning) -> State
        ensures { result ≡ set_cleaning self cleaning }
    {
        State { cleaning, ..self }
    }
}

// Why a call is refused, in the order of the refusals' numbers, 1 to 11, 13 and 14. docs/CALLS.md says what to do at each.
#[derive(Clone, Copy, PartialEq, Eq)]
pub enum Refusal {
    WrongLength,
    NotSound,
    OutOfRange,
    WrongMoment,
    Full,
    SequencesUsedUp,
    LogDamaged,
    LogOutOfOrder,
    TooFewFrames,
    NothingToDo,
    HeldBack,
    BadBlock,
    SequenceAhead,
}

impl Refusal {
    // The number of a refusal.
    pub fn number(self) -> u64
        ensures { result ≡ number_of self }
    {
        match self {
            Refusal::WrongLength => 1,
            Refusal::NotSound => 2,
            Refusal::OutOfRange => 3,
            Refusal::WrongMoment => 4,
            Refusal::Full => 5,
            Refusal::SequencesUsedUp => 6,
            Refusal::LogDamaged => 7,
            Refusal::LogOutOfOrder => 8,
            Refusal::TooFewFrames => 9,
            Refusal::NothingToDo => 10,
            Refusal::HeldBack => 11,
            Refusal::BadBlock => 13,
            Refusal::SequenceAhead => 14,
        }
    }

    // The refusal with a number, 1 to 11, for a caller that holds the number.
    pub fn of_number(number: u64) -> Refusal
        requires { (1 ≤ number) × (number ≤ 11) }
        ensures { number_of result ≡ number }
    {
        match number {
            1 => Refusal::WrongLength,
            2 => Refusal::NotSound,
            3 => Refusal::OutOfRange,
            4 => Refusal::WrongMoment,
            5 => Refusal::Full,
            6 => Refusal::SequencesUsedUp,
            7 => Refusal::LogDamaged,
            8 => Refusal::LogOutOfOrder,
            9 => Refusal::TooFewFrames,
            10 => Refusal::NothingToDo,
            _ => Refusal::HeldBack,
        }
    }
}

// A refusal of a log, and its place there.
#[derive(Clone, Copy, PartialEq, Eq)]
pub struct Stop {
    pub refusal: Refusal,
    pub place: u64,
}

// What an accepted Log step answers: an update was stored; or the commit was, and its ticket is settled.
#[derive(Clone, Copy, PartialEq, Eq)]
pub enum Logged {
    Stored,
    Settled(u64),
}

// What a copy's feed answers where it is not refused: the copy had the block already; half a page was stored, and the block is to be fed again;
// or the block is in the copy's log.
#[derive(Clone, Copy, PartialEq, Eq)]
pub enum Fed {
    Had,
    NotYet,
    Taken,
}

// What a call hands back: the state, and what it answers, or why it is refused.
#[derive(Clone, Copy)]
pub struct Outcome<T, E> {
    pub state: State,
    pub answer: Result<T, E>,
}

// What Read hands back: the committed bytes of a page, a part of home or of frames, and whether it is refused. Refused, the part is empty.
#[derive(Clone, Copy)]
pub struct Page<'a> {
    pub bytes: &'a [u8],
    pub answer: Result<(), Refusal>,
}
