// What a log says, for a reader: it is examined as Open would with 4,096 pages and 32 frames, and its lines are written one by one, or all
// as one text. No home, no frames and no staging are needed.
#![tactic(auto)]

ghost use Rattle.std.specs.Prelude.{◌≡◌, ℕ, ◌+◌, ◌-◌, ◌*◌, ◌≤◌, ◌<◌, length, get_or, [], IfOk};
ghost use Rattle.io.specs.Counts.{IsPrefixLen};
ghost use Rattle.block.specs.Sizes.{block_size, sequence_end};
ghost use Rattle.recovery.specs.Log.{header_of};
ghost use Rattle.opening.specs.Findings.{missing_at};
ghost use Rattle.lines.specs.Text.{line_most, Shows};
ghost use Rattle.outline.specs.Outline.{steps, started, sketch_in, Bounded, Ordinary};
ghost use Rattle.listing.specs.Listing.{shown_length, lines_of, text_of, text_most, headers_from, Examines};

use block::Block;
use outline::Course;
use promises::{Refusal, Stop};

// The pages of the store as which the log is examined.
const PAGES: usize = 4096;

// The most slots of a log that is shown.
pub const SLOTS: usize = 128;

// The most bytes of a log's text: the first line, and one for each slot.
pub const TEXT: usize = (SLOTS + 1) * lines::LINE;

// What an examination tells of a log that is not refused: the newest sequence, its keep-from and the last committed ticket. All are 0 where it
// has no block.
#[derive(Clone, Copy)]
pub struct Examined {
    pub newest: u64,
    pub keep: u64,
    pub ticket: u64,
}

// Whether a log of so many bytes has 8 to 128 whole slots.
fn length_fits(log: usize) -> bool
    ensures { result ≡ shown_length log }
{
    let slots = log / Block::SIZE;
    slots * Block::SIZE == log && (8..=SLOTS).contains(&slots)
}

// A block is missing at this place: refusal 7.
fn missing(place: u64) -> Stop
    ensures { result ≡ missing_at place }
{
    Stop {
        refusal: Refusal::LogDamaged,
        place,
    }
}

// The walk over the blocks from first to last.
fn walk_blocks(log: &[u8], first: u64, last: u64, ticket: u64) -> Result<Course, Stop>
    requires { (block_size ≤ length log.now) × (1 ≤ first) × (first ≤ last) × (last < sequence_end) × (ticket < sequence_end) × ((s : ℕ) → first ≤ s → s ≤ last → Ordinary (header_of log.now s)) }
    ensures { (sketch_in result ≡ steps 32 (headers_from log.now first (last + 1 - first)) (started first ticket)) × IfOk result (λ course. Bounded course × (course.next ≡ last + 1)) }
{
    let mut course = outline::start(first, ticket);
    for s in first..=last {
        course = outline::turn(Ok(course), recovery::header(log, s))?;
    }
    Ok(course)
}

// Examines a log of right length, with room for each slot's sequence.
fn examine_slots(log: &[u8], sequences: &mut [u64]) -> Result<Examined, Stop>
    requires { (length log.now ≡ length sequences.old * block_size) × (8 ≤ length sequences.old) × (length sequences.old ≤ 128) }
    ensures { Examines log.now result }
{
    let slots = sequences.len() as u64;
    let scan = recovery::judge_all(log, PAGES, sequences);
    let newest = scan.newest;
    if newest == 0 {
        if scan.unused {
            return Ok(Examined {
                newest: 0,
                keep: 0,
                ticket: 0,
            });
        }
        return Err(missing(0));
    }
    let last = recovery::header(log, newest);
    let keep = last.keep_from;
    let lost = recovery::missing(sequences, keep, newest);
    let end_damaged = recovery::damaged_at(log, PAGES, newest + 1);
    if lost <= newest {
        return Err(missing(lost));
    }
    if end_damaged {
        return Err(missing(newest + 1));
    }
    let first = recovery::header(log, keep);
    let walked = walk_blocks(log, keep, newest, first.ticket)?;
    let course = outline::last_test(Ok(walked), slots)?;
    Ok(Examined {
        newest,
        keep,
        ticket: course.ticket,
    })
}

// Examines a log.
pub fn examine(log: &[u8]) -> Result<Examined, Stop>
    ensures { Examines log.now result }
{
    if !length_fits(log.len()) {
        return Err(Stop {
            refusal: Refusal::WrongLength,
            place: 0,
        });
    }
    let slots = log.len() / Block::SIZE;
    let mut sequences = [0; SLOTS];
    examine_slots(log, &mut sequences[..slots])
}

// How many lines a log has that is examined.
pub fn line_count(log: &[u8], examined: Result<Examined, Stop>) -> usize
    requires { Examines log.now examined }
    ensures { result ≡ length (lines_of log.now) }
{
    match examined {
        Ok(shown) => {
            if shown.newest == 0 {
                return 1;
            }
            (shown.newest - shown.keep) as usize + 2
        }
        Err(_) => 1,
    }
}

// Writes line number index of a log that is examined, and answers its length.
pub fn line(log: &[u8], examined: Result<Examined, Stop>, index: usize, out: &mut [u8]) -> usize
    requires { Examines log.now examined × (index < length (lines_of log.now)) × (line_most ≤ length out.old) }
    ensures { Shows (get_or (lines_of log.now) index []) out.old out.new result }
{
    let shown = match examined {
        Ok(shown) => shown,
        Err(stop) => return lines::refused_line(out, stop.refusal.number(), stop.place),
    };
    if index == 0 {
        let slots = (log.len() / Block::SIZE) as u64;
        return lines::first_line(out, slots, shown.newest, shown.keep, shown.ticket);
    }
    let block = recovery::header(log, shown.keep + (index as u64 - 1));
    lines::block_line(out, block)
}

// Writes all lines of a log, one behind the other, and answers how many bytes they are. That the result counts bytes of out follows from the
// text: it is stated for `&out[..result]`.
pub fn text(log: &[u8], out: &mut [u8]) -> usize
    requires { text_most ≤ length out.old }
    ensures shows { Shows (text_of log.now) out.old out.new result }
    ensures prefix_len { IsPrefixLen result out.new }
{
    let examined = examine(log);
    let count = line_count(log, examined);
    let mut at = 0;
    for index in 0..count {
        at += line(log, examined, index, &mut out[at..at + lines::LINE]);
    }
    at
}
