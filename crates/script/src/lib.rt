// The script language of `replay`, as far as it needs no store: a line's command, the bytes that commands ask for, and the digest. A
// line is read byte by byte, so that a line of any length is read in no room of its own.
#![tactic(auto)]

mod filling;
mod parsing;

ghost use Rattle.std.specs.Prelude.{◌≡◌};
ghost use Rattle.script.specs.Digest.{digest_of};

pub use filling::{describe_bytes, home_bytes};
pub use parsing::{command_of, turn};

// What a line asks for.
#[derive(Clone, Copy)]
pub enum Command {
    Areas {
        slots: u64,
        pages: u64,
        frames: u64,
    },
    Format,
    Begin(u64),
    Describe {
        page: u64,
        offset: u64,
        length: u64,
        seed: u64,
    },
    Open,
    End,
    LogStep,
    CleanStep,
    Read(u64),
    Settled(u64),
    Cut,
    Lend {
        log: u64,
        home: u64,
        frames: u64,
        staging: u64,
    },
    Poke {
        place: u64,
        value: u64,
    },
    Next(u64),
    Digests,
}

// A line's letter and the numbers after it, as far as they are read. Count: the numbers begun, the newest last and the others
// before it; digits: the newest has one. The numbers are fields and no array: a fifth that begins moves them on without an index to prove.
#[derive(Clone, Copy)]
pub struct Line {
    pub letter: u8,
    pub count: usize,
    pub digits: bool,
    pub first: u64,
    pub second: u64,
    pub third: u64,
    pub last: u64,
}

// What is read of a line: nothing, a part that can still be a command's, or one that can't.
#[derive(Clone, Copy)]
pub enum Reading {
    Nothing,
    Partly(Line),
    Wrong,
}

// The digest of bytes: 0 at first, and for each byte 257 times what it was, the byte and 1, modulo 4,294,967,291.
pub fn digest(bytes: &[u8]) -> u64
    ensures { result ≡ digest_of bytes.now }
{
    let mut h = 0;
    for byte in bytes {
        h = (h * 257 + u64::from(*byte) + 1) % 4294967291;
    }
    h
}
