// Begin that waits, run, and printed with how many Log steps and Clean steps it took. First the longest waits: for each F from 1 to 32 a
// store of F frames in which F pages wait for their commits, so that each frame gets a dirty page and the same Begin is accepted after
// 3 F Clean steps. Then Begins that wait for less, and refusals.
#![tactic(auto)]

use block::Block;
use output::Output;
use promises::State;
use std::io;

// A store of these areas, formatted and opened.
fn opened(log: &mut [u8], home: &[u8], frames: &mut [u8], staging: &[u8]) -> State {
    let _ = store::format(log);
    store::open(log, home, frames, staging).state
}

// A transaction of one byte for a page, ended and not stored.
fn ended(state: State, staging: &mut [u8], page: usize) -> State {
    let begun = store::begin(state, 1);
    let described = store::describe(begun.state, staging, page, 0, &[42]);
    store::end(described.state).state
}

// The same for each of the first pages.
fn ended_all(state: State, staging: &mut [u8], pages: usize) -> State {
    let mut after = state;
    for page in 0..pages {
        after = ended(after, staging, page);
    }
    after
}

// A store of these areas with such a transaction for each of the first pages.
fn queued(
    log: &mut [u8],
    home: &[u8],
    frames: &mut [u8],
    staging: &mut [u8],
    pages: usize,
) -> State {
    let fresh = opened(log, home, frames, staging);
    ended_all(fresh, staging, pages)
}

// The same, with the transactions committed.
fn committed(
    log: &mut [u8],
    home: &[u8],
    frames: &mut [u8],
    staging: &mut [u8],
    pages: usize,
) -> State {
    let state = queued(log, home, frames, staging, pages);
    waiting::log_all(state, log, home, frames, staging).state
}

// Begin that waits: its line, and the state.
fn waits(
    rt: &impl Print,
    state: State,
    log: &mut [u8],
    home: &mut [u8],
    frames: &mut [u8],
    staging: &[u8],
    u: usize,
) -> io::Result<State> {
    let waited = waiting::begin(state, log, home, frames, staging, u);
    print!(rt;
        "begin {u} logged {} cleaned {}",
        waited.logged, waited.cleaned
    )?;
    match waited.answer {
        Ok(()) => print!(rt; " done")?,
        Err(refusal) => print!(rt; " refused {}", refusal.number())?,
    }
    println!(rt; " next {}", waited.state.next)?;
    Ok(waited.state)
}

// The longest wait of a store with so many frames.
fn longest(
    rt: &impl Print,
    log: &mut [u8],
    home: &mut [u8],
    frames: &mut [u8],
    staging: &mut [u8],
    count: usize,
) -> io::Result<()> {
    print!(rt; "frames {count} ")?;
    let state = queued(log, home, frames, staging, count);
    waits(rt, state, log, home, frames, staging, 1)?;
    Ok(())
}

// The longest waits, for each count of frames up to 32.
fn longest_waits(rt: &impl Print) -> io::Result<()> {
    let mut log = [0; 51712];
    let mut home = [7; 32768];
    let mut frames = [9; 32768];
    let mut staging = [0; 15104];
    for count in 1..33 {
        let slots = 3 * count + 5;
        longest(
            rt,
            &mut log[..slots * Block::SIZE],
            &mut home,
            &mut frames[..count * Block::PAGE],
            &mut staging[..count * Block::NEW_BYTES],
            count,
        )?;
    }
    Ok(())
}

// Begins that do not wait, one after the other: accepted, refused with 4 as one is open, and with 3.
fn at_once(
    rt: &impl Print,
    log: &mut [u8],
    home: &mut [u8],
    frames: &mut [u8],
    staging: &[u8],
) -> io::Result<()> {
    let fresh = opened(log, home, frames, staging);
    let open = waits(rt, fresh, log, home, frames, staging, 3)?;
    let same = waits(rt, open, log, home, frames, staging, 1)?;
    waits(rt, same, log, home, frames, staging, 0)?;
    Ok(())
}

// So many Clean steps.
fn cleaned(state: State, log: &mut [u8], home: &mut [u8], frames: &[u8], count: u64) -> State {
    let mut after = state;
    for _ in 0..count {
        after = store::clean_step(after, log, home, frames).state;
    }
    after
}

// Two pages are dirty, and so many of their stores are made: Begin waits for the others.
fn under_way(
    rt: &impl Print,
    log: &mut [u8],
    home: &mut [u8],
    frames: &mut [u8],
    staging: &mut [u8],
    made: u64,
) -> io::Result<()> {
    let dirty = committed(log, home, frames, staging, 2);
    let some = cleaned(dirty, log, home, frames, made);
    waits(rt, some, log, home, frames, staging, 3)?;
    Ok(())
}

// The same for each count of stores.
fn all_under_way(
    rt: &impl Print,
    log: &mut [u8],
    home: &mut [u8],
    frames: &mut [u8],
    staging: &mut [u8],
) -> io::Result<()> {
    for made in 0..7 {
        under_way(rt, log, home, frames, staging, made)?;
    }
    Ok(())
}

// Begin with a staging area of another length: the first Log step says so.
fn wrong_length(
    rt: &impl Print,
    log: &mut [u8],
    home: &mut [u8],
    frames: &mut [u8],
    staging: &mut [u8],
    short: &[u8],
) -> io::Result<()> {
    let state = queued(log, home, frames, staging, 3);
    let same = waits(rt, state, log, home, frames, short, 1)?;
    waits(rt, same, log, home, frames, staging, 1)?;
    Ok(())
}

// So few sequences are left that a Clean step, or the second Begin, is refused with 6.
fn used_up(
    rt: &impl Print,
    log: &mut [u8],
    home: &mut [u8],
    frames: &mut [u8],
    staging: &mut [u8],
    pages: usize,
    next: u64,
    u: usize,
) -> io::Result<()> {
    let mut fresh = opened(log, home, frames, staging);
    fresh.next = next;
    let state = ended_all(fresh, staging, pages);
    waits(rt, state, log, home, frames, staging, u)?;
    Ok(())
}

// Begins that wait for less, and refusals. The last two begin with 8 and with 7 sequences left below 2^48.
fn runs(
    rt: &impl Print,
    log: &mut [u8],
    home: &mut [u8],
    frames: &mut [u8],
    staging: &mut [u8],
    short: &[u8],
) -> io::Result<()> {
    at_once(rt, log, home, frames, staging)?;
    all_under_way(rt, log, home, frames, staging)?;
    wrong_length(rt, log, home, frames, staging, short)?;
    used_up(rt, log, home, frames, staging, 3, 281474976710648, 1)?;
    used_up(rt, log, home, frames, staging, 2, 281474976710649, 2)
}

// A store of 16 slots, 4 pages and 3 frames, and a staging area that is short of one byte.
fn small_runs(rt: &impl Print) -> io::Result<()> {
    let mut log = [0; 8192];
    let mut home = [7; 4096];
    let mut frames = [9; 3072];
    let mut staging = [0; 1416];
    let short = [0; 1415];
    runs(rt, &mut log, &mut home, &mut frames, &mut staging, &short)
}

// Every line, in order.
fn all_lines(rt: &impl Print) -> io::Result<()> {
    longest_waits(rt)?;
    small_runs(rt)
}

fn main() {
    let _ = all_lines(&Output);
}
