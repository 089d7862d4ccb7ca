// Drives Format, Begin, Describe, End, Settled and Read on areas and states of its own and prints what comes out, one line a call.
#![tactic(auto)]

use output::Output;
use promises::{Cleaning, Dirty, Refusal, State};
use std::io;

// Ends a line with a refusal.
fn refused(rt: &impl Print, refusal: Refusal) -> io::Result<()> {
    println!(rt; ": refused {}", refusal.number())
}

// Ends a line with an answer.
fn answered(rt: &impl Print, answer: Result<(), Refusal>) -> io::Result<()> {
    match answer {
        Ok(()) => println!(rt; ": done"),
        Err(refusal) => refused(rt, refusal),
    }
}

// A state of 8 slots, 4 pages and 2 frames with nothing queued and nothing open.
fn quiet(next: u64, ticket: u64, dirty: [Dirty; 32], cleaning: Cleaning) -> State {
    State {
        cleaning,
        ..State::idle(4, 8, 2, next, ticket, dirty)
    }
}

// The state that Open of an empty log gives, with another next sequence.
fn empty(next: u64) -> State {
    let dirty = State::all_zero().dirty;
    quiet(next, 0, dirty, Cleaning::Idle)
}

// The state with page 0 dirty in frame 0 since a group, and another page in frame 1 where its first group is not 0.
fn with_dirty(next: u64, first: u64, other: u16, other_first: u64, cleaning: Cleaning) -> State {
    let mut dirty = State::all_zero().dirty;
    dirty[0] = Dirty { page: 0, first };
    dirty[1] = Dirty {
        page: other,
        first: other_first,
    };
    quiet(next, 1, dirty, cleaning)
}

// The state after case 5: page 0 is dirty since sequence 1, ticket 1, next 3.
fn after_case_5() -> State {
    with_dirty(3, 1, 0, 0, Cleaning::Idle)
}

// A state that is not sound: the ticket is not below next.
fn unsound() -> State {
    let dirty = State::all_zero().dirty;
    quiet(3, 3, dirty, Cleaning::Idle)
}

fn begins(rt: &impl Print, state: State, u: usize) -> io::Result<State> {
    let outcome = store::begin(state, u);
    print!(rt; "begin {u}")?;
    answered(rt, outcome.answer)?;
    Ok(outcome.state)
}

fn describes(
    rt: &impl Print,
    state: State,
    staging: &mut [u8],
    page: usize,
    offset: usize,
    bytes: &[u8],
) -> io::Result<State> {
    let outcome = store::describe(state, staging, page, offset, bytes);
    print!(rt;
        "describe page {page} offset {offset} length {}",
        bytes.len()
    )?;
    answered(rt, outcome.answer)?;
    Ok(outcome.state)
}

fn ends(rt: &impl Print, state: State) -> io::Result<State> {
    let outcome = store::end(state);
    print!(rt; "end")?;
    match outcome.answer {
        Ok(ticket) => println!(rt; ": ticket {ticket}")?,
        Err(refusal) => refused(rt, refusal)?,
    }
    Ok(outcome.state)
}

fn settles(rt: &impl Print, state: State, ticket: u64) -> io::Result<()> {
    print!(rt; "settled {ticket}")?;
    match store::settled(state, ticket) {
        Ok(true) => println!(rt; ": yes"),
        Ok(false) => println!(rt; ": no"),
        Err(refusal) => refused(rt, refusal),
    }
}

fn reads(rt: &impl Print, state: State, home: &[u8], frames: &[u8], page: usize) -> io::Result<()> {
    print!(rt; "read {page}: ")?;
    let page = store::read(state, home, frames, page);
    match page.answer {
        Ok(()) => {
            print!(rt; "bytes ")?;
            ends_of(rt, page.bytes)?;
        }
        Err(refusal) => print!(rt; "refused {}", refusal.number())?,
    }
    println!(rt; " of {}", page.bytes.len())
}

// The first byte and the last.
fn ends_of(rt: &impl Print, part: &[u8]) -> io::Result<()> {
    match (part.first(), part.last()) {
        (Some(first), Some(last)) => print!(rt; "{first} {last}"),
        _ => Ok(()),
    }
}

fn formats(rt: &impl Print, log: &mut [u8]) -> io::Result<()> {
    print!(rt; "format {}", log.len())?;
    answered(rt, store::format(log))?;
    print!(rt; "log ")?;
    ends_of(rt, log)?;
    println!(rt; "")
}

// Staging's bytes at the ends of its two areas.
fn staged_bytes(rt: &impl Print, staging: &[u8; 944]) -> io::Result<()> {
    println!(rt;
        "staging {} {} {} {} {}",
        staging[0], staging[1], staging[471], staging[472], staging[943]
    )
}

// Format: 1, and the log zeroed.
fn format_lines(rt: &impl Print) -> io::Result<()> {
    let mut short = [7; 4095];
    formats(rt, &mut short)?;
    let mut seven = [7; 3584];
    formats(rt, &mut seven)?;
    let mut nothing = [7; 0];
    formats(rt, &mut nothing)?;
    let mut log = [7; 4096];
    formats(rt, &mut log)?;
    Ok(())
}

// One transaction of two updates on an empty log, with what each call refuses on the way.
fn queue_lines(rt: &impl Print) -> io::Result<()> {
    let mut staging = [0; 944];
    let mut short = [0; 943];
    let one = [42; 1];
    let most = [9; 472];
    let many = [9; 473];
    let state = empty(1);
    ends(rt, state)?;
    describes(rt, state, &mut staging, 0, 0, &one)?;
    begins(rt, state, 0)?;
    begins(rt, state, 17)?;
    begins(rt, state, 3)?;
    let open = begins(rt, state, 2)?;
    begins(rt, open, 1)?;
    begins(rt, open, 3)?;
    ends(rt, open)?;
    describes(rt, open, &mut short, 0, 0, &one)?;
    describes(rt, open, &mut staging, 4, 0, &one)?;
    describes(rt, open, &mut staging, 0, 553, &most)?;
    describes(rt, open, &mut staging, 0, 0, &many)?;
    describes(rt, open, &mut staging, 0, 0, &one[..0])?;
    let first = describes(rt, open, &mut staging, 0, 0, &one)?;
    staged_bytes(rt, &staging)?;
    let second = describes(rt, first, &mut staging, 3, 552, &most)?;
    staged_bytes(rt, &staging)?;
    describes(rt, second, &mut staging, 1, 0, &one)?;
    let queued = ends(rt, second)?;
    ends(rt, queued)?;
    begins(rt, queued, 1)?;
    settles(rt, queued, 0)?;
    settles(rt, queued, 1)?;
    settles(rt, queued, 2)?;
    Ok(())
}

// Worked cases 10 and 11, after case 5, and where Read's bytes come from.
fn case_lines(rt: &impl Print) -> io::Result<()> {
    let mut home = [10; 4096];
    home[1024] = 11;
    home[3072] = 13;
    home[4095] = 14;
    let mut frames = [0; 2048];
    frames[0] = 42;
    frames[1023] = 43;
    let state = after_case_5();
    begins(rt, state, 1)?;
    begins(rt, state, 2)?;
    begins(rt, state, 3)?;
    settles(rt, state, 1)?;
    settles(rt, state, 2)?;
    reads(rt, state, &home, &frames, 0)?;
    reads(rt, state, &home, &frames, 1)?;
    reads(rt, state, &home, &frames, 3)?;
    reads(rt, state, &home, &frames, 4)?;
    reads(rt, state, &home[..3072], &frames, 4)?;
    reads(rt, state, &home, &frames[..1024], 0)?;
    Ok(())
}

// Refusal 2 before all others, 6 before 5, and states that are not sound.
fn order_lines(rt: &impl Print) -> io::Result<()> {
    let home = [10; 4096];
    let frames = [0; 2048];
    let mut short = [0; 943];
    let one = [42; 1];
    let broken = unsound();
    begins(rt, broken, 0)?;
    describes(rt, broken, &mut short, 4, 0, &one)?;
    ends(rt, broken)?;
    settles(rt, broken, 0)?;
    reads(rt, broken, &home[..3072], &frames, 4)?;
    let twice = with_dirty(3, 1, 0, 1, Cleaning::Idle);
    reads(rt, twice, &home, &frames, 0)?;
    let clean = with_dirty(3, 1, 1, 2, Cleaning::Third(2));
    reads(rt, clean, &home, &frames, 0)?;
    let cleaning = with_dirty(3, 1, 1, 2, Cleaning::Third(1));
    reads(rt, cleaning, &home, &frames, 0)?;
    let last = empty(281474976710654);
    begins(rt, last, 1)?;
    begins(rt, last, 2)?;
    let late = with_dirty(281474976710655, 281474976710654, 0, 0, Cleaning::Idle);
    begins(rt, late, 2)?;
    Ok(())
}

// Every line, in order.
fn all_lines(rt: &impl Print) -> io::Result<()> {
    format_lines(rt)?;
    queue_lines(rt)?;
    case_lines(rt)?;
    order_lines(rt)?;
    Ok(())
}

fn main() {
    let _ = all_lines(&Output);
}
