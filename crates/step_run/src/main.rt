// Drives Log step and Clean step on areas and states of its own, and prints one line a call: the answer, then what the slot holds
// that the call stored, or the first bytes of the page's halves at home. 8 slots, 4 pages and 2 frames.
#![tactic(auto)]

use block::{Block, Judged, Kind};
use output::Output;
use promises::{Cleaning, Dirty, Logged, Staged, State};
use std::io;

// What a kind of block says.
fn show_kind(rt: &impl Print, kind: Kind) -> io::Result<()> {
    match kind {
        Kind::Update {
            index,
            page,
            offset,
            length,
        } => print!(rt; " update index {index} page {page} offset {offset} length {length}"),
        Kind::Commit { updates } => print!(rt; " commit updates {updates}"),
        Kind::Clean { page } => print!(rt; " clean page {page}"),
    }
}

// What a block says.
fn show_block(rt: &impl Print, block: Block) -> io::Result<()> {
    show_kind(rt, block.kind)?;
    print!(rt;
        " sequence {} keep-from {} ticket {}",
        block.sequence, block.keep_from, block.ticket
    )
}

// What a slot of the log holds, and its check.
fn show_slot(rt: &impl Print, log: &[u8], slot: usize) -> io::Result<()> {
    print!(rt; "; slot {slot}")?;
    if 8 <= slot || log.len() < 4096 {
        return Ok(());
    }
    let bytes = &log[slot * Block::SIZE..(slot + 1) * Block::SIZE];
    match block::judge(bytes, 8, 4, slot as u64) {
        Judged::Unused => print!(rt; " unused")?,
        Judged::Damaged => print!(rt; " damaged")?,
        Judged::Valid(block) => show_block(rt, block)?,
    }
    print!(rt;
        " check {:02X} {:02X} {:02X} {:02X}",
        bytes[508], bytes[509], bytes[510], bytes[511]
    )
}

// The first byte of each half of a page.
fn show_page(rt: &impl Print, areas: &[u8], page: usize) -> io::Result<()> {
    print!(rt; "; page {page}")?;
    if 4 <= page || areas.len() < 4096 {
        return Ok(());
    }
    let at = page * Block::PAGE;
    print!(rt; " halves {} {}", areas[at], areas[at + Block::SIZE])
}

// Where a cleaning is.
fn show_cleaning(rt: &impl Print, cleaning: Cleaning) -> io::Result<()> {
    match cleaning {
        Cleaning::Idle => print!(rt; "; idle"),
        Cleaning::First(page) => print!(rt; "; first of {page}"),
        Cleaning::Second(page) => print!(rt; "; second of {page}"),
        Cleaning::Third(page) => print!(rt; "; third of {page}"),
    }
}

// A Log step, its answer, the slot that the next block belongs in, and the first bytes of the frames.
fn logs(
    rt: &impl Print,
    state: State,
    log: &mut [u8],
    home: &[u8],
    frames: &mut [u8],
    staging: &[u8],
    slot: usize,
) -> io::Result<State> {
    let outcome = store::log_step(state, log, home, frames, staging);
    match outcome.answer {
        Ok(Logged::Stored) => print!(rt; "log step stored")?,
        Ok(Logged::Settled(ticket)) => print!(rt; "log step settled {ticket}")?,
        Err(refusal) => print!(rt; "log step refused {}", refusal.number())?,
    }
    show_slot(rt, log, slot)?;
    if 1025 <= frames.len() {
        print!(rt; "; frames {} {} {}", frames[0], frames[1], frames[1024])?;
    }
    show_cleaning(rt, outcome.state.cleaning)?;
    println!(rt; "")?;
    Ok(outcome.state)
}

// A Clean step, its answer, a slot and a page.
fn cleans(
    rt: &impl Print,
    state: State,
    log: &mut [u8],
    home: &mut [u8],
    frames: &[u8],
    slot: usize,
    page: usize,
) -> io::Result<State> {
    let outcome = store::clean_step(state, log, home, frames);
    match outcome.answer {
        Ok(()) => print!(rt; "clean step done")?,
        Err(refusal) => print!(rt; "clean step refused {}", refusal.number())?,
    }
    show_slot(rt, log, slot)?;
    show_page(rt, home, page)?;
    show_cleaning(rt, outcome.state.cleaning)?;
    println!(rt; "")?;
    Ok(outcome.state)
}

// Two staged updates of page 0: byte 0, and bytes 0 and 1.
fn two_staged() -> [Staged; 32] {
    let mut staged = [Staged {
        page: 0,
        offset: 0,
        length: 1,
        area: 0,
    }; 32];
    staged[1] = Staged {
        page: 0,
        offset: 0,
        length: 2,
        area: 1,
    };
    staged
}

// A state with these two frames, one queued group of so many updates, or none where it is 0, and this cleaning.
fn state_of(
    next: u64,
    ticket: u64,
    first_frame: Dirty,
    second_frame: Dirty,
    size: u8,
    stored: usize,
    cleaning: Cleaning,
) -> State {
    let zero = State::all_zero();
    let mut dirty = zero.dirty;
    dirty[0] = first_frame;
    dirty[1] = second_frame;
    let mut groups = zero.groups;
    groups[0] = size;
    State {
        staged: two_staged(),
        groups,
        queued: if size == 0 { 0 } else { 1 },
        stored,
        cleaning,
        ..State::idle(4, 8, 2, next, ticket, dirty)
    }
}

// No page.
fn nothing() -> Dirty {
    Dirty { page: 0, first: 0 }
}

// The log's part in the life of one transaction: worked cases 2 and 3 come out as blocks, then nothing is queued.
fn life_logged(
    rt: &impl Print,
    log: &mut [u8],
    home: &[u8],
    frames: &mut [u8],
    staging: &[u8],
) -> io::Result<State> {
    let queued = state_of(1, 0, nothing(), nothing(), 1, 0, Cleaning::Idle);
    let half = logs(rt, queued, log, home, frames, staging, 1)?;
    let dirty = logs(rt, half, log, home, frames, staging, 2)?;
    logs(rt, dirty, log, home, frames, staging, 3)
}

// The cleaning's part: the two halves, then worked case 4 as a block.
fn life_cleaned(
    rt: &impl Print,
    state: State,
    log: &mut [u8],
    home: &mut [u8],
    frames: &[u8],
) -> io::Result<State> {
    let second = cleans(rt, state, log, home, frames, 3, 0)?;
    let third = cleans(rt, second, log, home, frames, 3, 0)?;
    cleans(rt, third, log, home, frames, 3, 0)
}

// Once no page is dirty there is nothing to do; and an area of another length is told first.
fn life_over(
    rt: &impl Print,
    state: State,
    log: &mut [u8],
    short_log: &mut [u8],
    home: &mut [u8],
    frames: &[u8],
) -> io::Result<()> {
    let same = cleans(rt, state, log, home, frames, 4, 0)?;
    cleans(rt, same, short_log, home, frames, 4, 0)?;
    Ok(())
}

// A group of two updates of one page, whose sequences wrap: the later update wins.
fn wrapped(
    rt: &impl Print,
    log: &mut [u8],
    home: &[u8],
    frames: &mut [u8],
    staging: &[u8],
) -> io::Result<()> {
    let queued = state_of(8, 1, nothing(), nothing(), 2, 0, Cleaning::Idle);
    let one = logs(rt, queued, log, home, frames, staging, 0)?;
    let two = logs(rt, one, log, home, frames, staging, 1)?;
    logs(rt, two, log, home, frames, staging, 2)?;
    Ok(())
}

// A half-stored group holds a clean block back, and its commit makes the cleaning of its page idle.
fn overtaken(
    rt: &impl Print,
    log: &mut [u8],
    home: &mut [u8],
    frames: &mut [u8],
    staging: &[u8],
) -> io::Result<()> {
    let cleaned = state_of(
        5,
        1,
        Dirty { page: 0, first: 2 },
        nothing(),
        1,
        1,
        Cleaning::Third(0),
    );
    let held = cleans(rt, cleaned, log, home, frames, 5, 0)?;
    logs(rt, held, log, home, frames, staging, 5)?;
    Ok(())
}

// The page that an idle cleaning takes: of the smallest first group, and among equals the lowest.
fn taken(rt: &impl Print, log: &mut [u8], home: &mut [u8], frames: &[u8]) -> io::Result<()> {
    let oldest = state_of(
        6,
        2,
        Dirty { page: 0, first: 4 },
        Dirty { page: 2, first: 3 },
        0,
        0,
        Cleaning::Idle,
    );
    cleans(rt, oldest, log, home, frames, 6, 2)?;
    let lowest = state_of(
        6,
        2,
        Dirty { page: 3, first: 3 },
        Dirty { page: 1, first: 3 },
        0,
        0,
        Cleaning::Idle,
    );
    cleans(rt, lowest, log, home, frames, 6, 1)?;
    Ok(())
}

// A clean block when the sequences are used up.
fn used_up(rt: &impl Print, log: &mut [u8], home: &mut [u8], frames: &[u8]) -> io::Result<()> {
    let last = state_of(
        281474976710656,
        2,
        Dirty {
            page: 0,
            first: 281474976710655,
        },
        nothing(),
        0,
        0,
        Cleaning::Third(0),
    );
    cleans(rt, last, log, home, frames, 0, 0)?;
    Ok(())
}

// A state that is not sound: its ticket is not below next.
fn not_sound(
    rt: &impl Print,
    log: &mut [u8],
    home: &mut [u8],
    frames: &mut [u8],
    staging: &[u8],
) -> io::Result<()> {
    let unsound = state_of(3, 3, nothing(), nothing(), 1, 0, Cleaning::Idle);
    logs(rt, unsound, log, home, frames, staging, 3)?;
    cleans(rt, unsound, log, home, frames, 3, 0)?;
    Ok(())
}

// Every line, in order.
fn all_lines(rt: &impl Print) -> io::Result<()> {
    let mut log = [0; 4096];
    let mut home = [7; 4096];
    let mut frames = [9; 2048];
    let mut staging = [0; 944];
    staging[0] = 42;
    staging[472] = 50;
    staging[473] = 51;
    let dirty = life_logged(rt, &mut log, &home, &mut frames, &staging)?;
    let clean = life_cleaned(rt, dirty, &mut log, &mut home, &frames)?;
    let mut short_log = [0; 3584];
    life_over(rt, clean, &mut log, &mut short_log, &mut home, &frames)?;
    wrapped(rt, &mut log, &home, &mut frames, &staging)?;
    overtaken(rt, &mut log, &mut home, &mut frames, &staging)?;
    taken(rt, &mut log, &mut home, &frames)?;
    used_up(rt, &mut log, &mut home, &frames)?;
    not_sound(rt, &mut log, &mut home, &mut frames, &staging)?;
    Ok(())
}

fn main() {
    let _ = all_lines(&Output);
}
