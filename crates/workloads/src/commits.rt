// The workloads that change the store: transactions with their cleaning, and Begin refused as full.
use crate::{calling, numbers};
use promises::{Refusal, State};

// The store as the calls before left it, and the digest of their answers.
#[derive(Clone, Copy)]
struct Progress {
    state: State,
    digest: u64,
}

// The pages and offsets of a transaction's two updates.
#[derive(Clone, Copy)]
struct Places {
    first_page: usize,
    first_offset: usize,
    second_page: usize,
    second_offset: usize,
}

// New bytes of transaction i: those of its first update or of its second.
fn new_bytes(i: u64, which: u8) -> [u8; 24] {
    [
        (i % 256) as u8,
        (i / 256 % 256) as u8,
        (i / 65536 % 256) as u8,
        which,
        44,
        55,
        66,
        77,
        88,
        99,
        110,
        121,
        132,
        143,
        154,
        165,
        176,
        187,
        198,
        209,
        220,
        231,
        242,
        253,
    ]
}

// The page that a second update goes to: not the first one's.
fn other_page(first: usize, second: usize) -> usize {
    if second == first {
        return (first % 4096 + 1) % 4096;
    }
    second
}

// The places that four draws give.
fn drawn(a: u64, b: u64, c: u64, d: u64) -> Places {
    let first_page = (a / 65536 % 4096) as usize;
    Places {
        first_page,
        first_offset: (b / 65536 % 1001) as usize,
        second_page: other_page(first_page, (c / 65536 % 4096) as usize),
        second_offset: (d / 65536 % 1001) as usize,
    }
}

// Begin of two updates. While it is refused as full a page is cleaned, but of no more than so many pages, and Begin is called again.
fn begun(
    progress: Progress,
    log: &mut [u8],
    home: &mut [u8],
    frames: &[u8],
    pages: u64,
) -> Progress {
    let mut outcome = store::begin(progress.state, 2);
    let mut digest = calling::done(progress.digest, outcome.answer);
    for _ in 0..pages {
        if outcome.answer != Err(Refusal::Full) {
            break;
        }
        let state = outcome.state;
        let after = cleaned(Progress { state, digest }, log, home, frames, 3);
        outcome = store::begin(after.state, 2);
        digest = calling::done(after.digest, outcome.answer);
    }
    let state = outcome.state;
    Progress { state, digest }
}

// Both updates described, the transaction ended, and its three blocks stored.
fn committed(
    progress: Progress,
    log: &mut [u8],
    home: &[u8],
    frames: &mut [u8],
    staging: &mut [u8],
    i: u64,
    places: Places,
) -> Progress {
    let mut state = progress.state;
    let mut digest = progress.digest;
    for (which, page, offset) in [
        (1, places.first_page, places.first_offset),
        (2, places.second_page, places.second_offset),
    ] {
        let outcome = store::describe(state, staging, page, offset, &new_bytes(i, which));
        state = outcome.state;
        digest = calling::done(digest, outcome.answer);
    }
    let ended = store::end(state);
    state = ended.state;
    digest = calling::answered(digest, ended.answer);
    for _ in 0..3 {
        let outcome = store::log_step(state, log, home, frames, staging);
        state = outcome.state;
        digest = calling::logged(digest, outcome.answer);
    }
    Progress { state, digest }
}

// So many Clean steps.
fn cleaned(
    progress: Progress,
    log: &mut [u8],
    home: &mut [u8],
    frames: &[u8],
    steps: u64,
) -> Progress {
    let mut state = progress.state;
    let mut digest = progress.digest;
    for _ in 0..steps {
        let outcome = store::clean_step(state, log, home, frames);
        state = outcome.state;
        digest = calling::done(digest, outcome.answer);
    }
    Progress { state, digest }
}

// Open of what these areas hold.
fn opened(log: &[u8], home: &[u8], frames: &mut [u8], staging: &[u8]) -> Progress {
    let outcome = store::open(log, home, frames, staging);
    Progress {
        state: outcome.state,
        digest: calling::opened(0, outcome.answer),
    }
}

// Transactions of two updates: so many pages at most are cleaned where Begin is refused as full, and so many Clean steps follow each.
fn transactions(
    log: &mut [u8],
    home: &mut [u8],
    frames: &mut [u8],
    staging: &mut [u8],
    count: u64,
    pages: u64,
    steps: u64,
) -> u64 {
    let _ = store::format(log);
    let mut progress = opened(log, home, frames, staging);
    let mut x = 1;
    for i in 0..count {
        let a = numbers::after(x);
        let b = numbers::after(a);
        let c = numbers::after(b);
        x = numbers::after(c);
        progress = begun(progress, log, home, frames, pages);
        progress = committed(progress, log, home, frames, staging, i, drawn(a, b, c, x));
        progress = cleaned(progress, log, home, frames, steps);
    }
    progress.digest
}

// Transactions of two updates, both pages cleaned at once.
pub fn commits(
    log: &mut [u8],
    home: &mut [u8],
    frames: &mut [u8],
    staging: &mut [u8],
    count: u64,
) -> u64 {
    transactions(log, home, frames, staging, count, 0, 6)
}

// The same, cleaned only once Begin is refused as full.
pub fn late_commits(
    log: &mut [u8],
    home: &mut [u8],
    frames: &mut [u8],
    staging: &mut [u8],
    count: u64,
) -> u64 {
    transactions(log, home, frames, staging, count, 32, 0)
}

// Begin again and again, where all frames are in use.
pub fn refused_begins(
    log: &[u8],
    home: &[u8],
    frames: &mut [u8],
    staging: &[u8],
    count: u64,
) -> u64 {
    let progress = opened(log, home, frames, staging);
    let mut state = progress.state;
    let mut digest = progress.digest;
    for _ in 0..count {
        let outcome = store::begin(state, 1);
        state = outcome.state;
        digest = calling::done(digest, outcome.answer);
    }
    digest
}
