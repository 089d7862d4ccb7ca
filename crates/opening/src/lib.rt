// Open: the lent lengths, then the log, judged and walked over, then the answer. It never writes log, home or staging. The opening of a
// copy is the same, but it has no staging and keeps a half group.
#![tactic(auto)]

ghost use Rattle.std.specs.Prelude.{◌≡◌, ℕ, ◌+◌, ◌-◌, ◌*◌, ◌≤◌, ◌<◌, length, replicate, IfOk, MatchResult};
ghost use Rattle.block.specs.Sizes.{block_size, page_size, sequence_end};
ghost use Rattle.promises.specs.Areas.{slots_in, pages_in, frames_in, page_at};
ghost use Rattle.promises.specs.Walk.{walk_from, start_with, finding};
ghost use Rattle.promises.specs.Open.{lengths_fit, Opens};
ghost use Rattle.promises.specs.CopyOpen.{copy_lengths_fit, OpensCopy};
ghost use Rattle.table.specs.Seats.{dirty_in};
ghost use Rattle.recovery.specs.Log.{blocks_from, Legal};
ghost use Rattle.opening.specs.Findings.{missing_at, found_of, outcome_refused, outcome_found, Finds, kept_from, Keeps};

use block::Block;
use promises::{Outcome, Refusal, State, Stop};
use recovery::Stage;

// What was found in a log: the newest sequence, and where the walk ended.
#[derive(Clone, Copy)]
pub struct Found {
    pub newest: u64,
    pub stage: Stage,
}

// Whether the lent lengths are whole counts in range, and frames and staging are of one count.
fn lengths_fit(log: usize, home: usize, frames: usize, staging: usize) -> bool
    ensures { result ≡ lengths_fit log home frames staging }
{
    let slots = log / Block::SIZE;
    let pages = home / Block::PAGE;
    let count = frames / Block::PAGE;
    let log_fits = (slots * Block::SIZE == log) & ((8 <= slots) & (slots <= 1024));
    let home_fits = (pages * Block::PAGE == home) & ((1 <= pages) & (pages <= 4096));
    let frames_fit = (count * Block::PAGE == frames)
        & ((1 <= count) & (count <= 32))
        & (staging == count * Block::NEW_BYTES);
    log_fits & home_fits & frames_fit
}

// A block is missing at this place: refusal 7.
fn missing(place: u64) -> Stop
    ensures { result ≡ missing_at place }
{
    Stop {
        refusal: Refusal::LogDamaged,
        place,
    }
}

// The walk over the blocks from first to last, which are all in their slots, and the last test. No seat is taken yet.
fn walked(
    seats: &mut [u64],
    log: &[u8],
    home: &[u8],
    frames: &mut [u8],
    first: u64,
    last: u64,
    ticket: u64,
) -> Result<Found, Stop>
    requires log_bound { (slots_in (length log.now) ≤ 1024) × (block_size ≤ length log.now) × (pages_in (length home.now) ≤ 4096) × (length frames.old ≡ frames_in (length frames.old) * page_size) × (frames_in (length frames.old) ≤ 32) × (seats.old ≡ replicate (frames_in (length frames.old)) 0) }
    requires first_bound { (first ≤ last + 1) × (last < sequence_end) × (ticket < first) × ((s : ℕ) → first ≤ s → s ≤ last → Legal log.now home.now s) }
    ensures { Finds log.now home.now (frames_in (length frames.old)) (walk_from (slots_in (length log.now)) (frames_in (length frames.old)) (page_at home.now) (last + 1) first (blocks_from log.now first (last + 1 - first)) (start_with ticket)) (found_of result seats.new) frames.new }
{
    let slots = log.len() / Block::SIZE;
    let start = Stage {
        ticket,
        start: 0,
        count: 0,
    };
    let stage = recovery::walk_all(Ok(start), seats, log, home, frames, first, last)?;
    recovery::last_test(seats, slots, last, last + 1)?;
    Ok(Found {
        newest: last,
        stage,
    })
}

// What a log of right length holds, with room for each slot's sequence.
fn find(
    seats: &mut [u64],
    log: &[u8],
    home: &[u8],
    frames: &mut [u8],
    sequences: &mut [u64],
) -> Result<Found, Stop>
    requires { (length log.now ≡ length sequences.old * block_size) × (8 ≤ length sequences.old) × (length sequences.old ≤ 1024) × (pages_in (length home.now) ≤ 4096) × (length frames.old ≡ frames_in (length frames.old) * page_size) × (frames_in (length frames.old) ≤ 32) × (seats.old ≡ replicate (frames_in (length frames.old)) 0) }
    ensures { Finds log.now home.now (frames_in (length frames.old)) (finding (slots_in (length log.now)) (pages_in (length home.now)) (frames_in (length frames.old)) log.now home.now) (found_of result seats.new) frames.new }
{
    let pages = home.len() / Block::PAGE;
    let scan = recovery::judge_all(log, pages, sequences);
    let newest = scan.newest;
    if newest == 0 {
        if !scan.unused {
            return Err(missing(0));
        }
        return walked(seats, log, home, frames, 1, 0, 0);
    }
    let last = recovery::header(log, newest);
    let keep = last.keep_from;
    let lost = recovery::missing(sequences, keep, newest);
    let end_damaged = recovery::damaged_at(log, pages, newest + 1);
    if lost <= newest {
        return Err(missing(lost));
    }
    if end_damaged {
        return Err(missing(newest + 1));
    }
    let first = recovery::header(log, keep);
    walked(seats, log, home, frames, keep, newest, first.ticket)
}

// What a log of right length holds.
fn read_log(seats: &mut [u64], log: &[u8], home: &[u8], frames: &mut [u8]) -> Result<Found, Stop>
    requires { (length log.now ≡ slots_in (length log.now) * block_size) × (8 ≤ slots_in (length log.now)) × (slots_in (length log.now) ≤ 1024) × (pages_in (length home.now) ≤ 4096) × (length frames.old ≡ frames_in (length frames.old) * page_size) × (frames_in (length frames.old) ≤ 32) × (seats.old ≡ replicate (frames_in (length frames.old)) 0) }
    ensures { Finds log.now home.now (frames_in (length frames.old)) (finding (slots_in (length log.now)) (pages_in (length home.now)) (frames_in (length frames.old)) log.now home.now) (found_of result seats.new) frames.new }
{
    let slots = log.len() / Block::SIZE;
    let mut sequences = [0; 1024];
    find(seats, log, home, frames, &mut sequences[..slots])
}

// A refused opening: the all-zero state.
fn refused(stop: Stop) -> Outcome<u64, Stop>
    ensures { result ≡ outcome_refused stop }
{
    Outcome {
        state: State::all_zero(),
        answer: Err(stop),
    }
}

// What an opening answers to what was found: a desk's state, or the refusal; after a refusal the frames are zero.
fn answered(
    found: Result<Found, Stop>,
    seats: &[u64],
    log: &[u8],
    home: &[u8],
    frames: &mut [u8],
) -> Outcome<u64, Stop>
    requires { (length seats.now ≤ 32) × IfOk found (λ f. f.newest < sequence_end) }
    ensures { MatchResult found (λ f. (result ≡ outcome_found (pages_in (length home.now)) (slots_in (length log.now)) (frames_in (length frames.old)) f (dirty_in seats.now)) × (frames.new ≡ frames.old)) (λ stop. (result ≡ outcome_refused stop) × (frames.new ≡ replicate (length frames.old) 0)) }
{
    match found {
        Ok(found) => {
            let pages = home.len() / Block::PAGE;
            let slots = log.len() / Block::SIZE;
            let count = frames.len() / Block::PAGE;
            let ticket = found.stage.ticket;
            let dirty = table::seats::entries(seats);
            Outcome {
                state: State::idle(pages, slots, count, found.newest + 1, ticket, dirty),
                answer: Ok(ticket),
            }
        }
        Err(stop) => {
            area::clear(frames);
            refused(stop)
        }
    }
}

// Open: refusals 1, 7, 8 and 9; or a sound state, with each dirty page's committed bytes in a frame.
pub fn open(log: &[u8], home: &[u8], frames: &mut [u8], staging: &[u8]) -> Outcome<u64, Stop>
    ensures { Opens log.now home.now frames.old staging.now result frames.new }
{
    if !lengths_fit(log.len(), home.len(), frames.len(), staging.len()) {
        return refused(Stop {
            refusal: Refusal::WrongLength,
            place: 0,
        });
    }
    let count = frames.len() / Block::PAGE;
    let mut seats = [0; 32];
    let found = read_log(&mut seats[..count], log, home, frames);
    answered(found, &seats[..count], log, home, frames)
}

// Whether the lent lengths are whole counts in range, as for Open, where staging is of their count.
fn copy_lengths_fit(log: usize, home: usize, frames: usize) -> bool
    ensures { result ≡ copy_lengths_fit log home frames }
{
    lengths_fit(log, home, frames, frames / Block::PAGE * Block::NEW_BYTES)
}

// Where a half group starts; next where there is none.
fn kept_from(stage: Stage, next: u64) -> u64
    ensures { result ≡ kept_from stage next }
{
    if stage.count == 0 { next } else { stage.start }
}

// What a log of right length holds for a copy: the last test once more, where a half group's start counts.
fn read_kept(seats: &mut [u64], log: &[u8], home: &[u8], frames: &mut [u8]) -> Result<Found, Stop>
    requires { (length log.now ≡ slots_in (length log.now) * block_size) × (8 ≤ slots_in (length log.now)) × (slots_in (length log.now) ≤ 1024) × (pages_in (length home.now) ≤ 4096) × (length frames.old ≡ frames_in (length frames.old) * page_size) × (frames_in (length frames.old) ≤ 32) × (seats.old ≡ replicate (frames_in (length frames.old)) 0) }
    ensures { Keeps log.now home.now (frames_in (length frames.old)) (finding (slots_in (length log.now)) (pages_in (length home.now)) (frames_in (length frames.old)) log.now home.now) (found_of result seats.new) frames.new }
{
    let slots = log.len() / Block::SIZE;
    let found = read_log(seats, log, home, frames)?;
    let from = kept_from(found.stage, found.newest + 1);
    recovery::last_test(seats, slots, found.newest, from)?;
    Ok(found)
}

// The opening of a copy: as Open, but a half group at the log's end is kept, and its start counts in H + D.
pub fn open_copy(log: &[u8], home: &[u8], frames: &mut [u8]) -> Outcome<u64, Stop>
    ensures { OpensCopy log.now home.now frames.old result frames.new }
{
    if !copy_lengths_fit(log.len(), home.len(), frames.len()) {
        return refused(Stop {
            refusal: Refusal::WrongLength,
            place: 0,
        });
    }
    let count = frames.len() / Block::PAGE;
    let mut seats = [0; 32];
    let found = read_kept(&mut seats[..count], log, home, frames);
    let mut outcome = answered(found, &seats[..count], log, home, frames);
    if let Ok(found) = found {
        outcome.state.stored = found.stage.count;
        outcome.state.copy = true;
    }
    outcome
}
