// The page store: nine calls over four areas that the caller lends.
//
//   log      N * 512 bytes, N from 8 to 1,024     the blocks of the redo log; must survive a power cut
//   home     P * 1,024 bytes, P from 1 to 4,096   the pages; must survive a power cut
//   frames   F * 1,024 bytes, F from 1 to 32      committed bytes of pages that are not home yet; memory
//   staging  F * 472 bytes                        new bytes of updates that wait for their commit; memory
//
// All else is the state, a value that each call takes and hands back; the caller keeps the newest one. Usual order: Format once, Open,
// then Begin, Describe (once for each update), End, Log step until it answers settled, Read; Clean step at any time.
//
// No call has a `requires`: any state, lengths and numbers are answered. A call tests its refusals in the order that its comment gives; a
// refused call hands back the state that it was given and changes no byte (Open: see there). Refusals by number: 1 a lent length is wrong; 2
// the state is not sound; 3 a number is out of range; 4 wrong moment; 5 full for now; 6 sequences are used up; 7 log damaged; 8 log out of
// order; 9 too few frames; 10 nothing to do; 11 held back by a half-stored group. What to do at each, the sums (next, H, W, D, V, R) and all
// words: docs/CALLS.md.
//
// Each call's whole promise is the file of promises/specs that its comment names.
//
// A call changes a copy of its state in place and hands that back: a state of 880 bytes that came back from the crates below would be copied
// by each. The change stands in a function of its own, which ends at the first refusal.
#![tactic(auto)]

ghost use Rattle.promises.specs.Answers.{refusal_in};
ghost use Rattle.promises.specs.Format.{Formats};
ghost use Rattle.promises.specs.Open.{Opens};
ghost use Rattle.promises.specs.Begin.{Begins};
ghost use Rattle.promises.specs.Describe.{Describes};
ghost use Rattle.promises.specs.End.{Ends};
ghost use Rattle.promises.specs.LogStep.{LogSteps};
ghost use Rattle.promises.specs.CleanStep.{CleanSteps};
ghost use Rattle.promises.specs.Read.{Reads};
ghost use Rattle.promises.specs.Settled.{Settles};
ghost use Rattle.queueing.specs.Queueing.{update_of};

use block::Block;
use cleaning::Next;
use promises::{Cleaning, Dirty, Logged, Outcome, Page, Refusal, Staged, State, Stop};
use queueing::{deciding, finding};

// Format: makes a new log. All its bytes become zero; what the old log knew is gone.
//
// Home is not lent: its bytes, whatever they are, are the pages from now on. It gives no state: an Open must follow. A state from before is
// still taken if it is sound, but the crash theorem no longer speaks of what a call makes of it; nor of a power cut inside Format: format again.
//
// Refused: 1 `log` is not 8 to 1,024 whole slots of 512 bytes.
//
// Promise: promises/specs/Format.antt.
pub fn format(log: &mut [u8]) -> Result<(), Refusal>
    ensures { Formats log.old result log.new }
{
    deciding::format_refusal(log.len())?;
    area::clear(log);
    Ok(())
}

// Open: reads the log, finds what was committed, and gives the state to go on with. To be called at the start, and after every power cut.
//
// It never writes log, home or staging. Accepted, it answers the last committed ticket, settled with all before it; committed pages that are
// not home yet are in `frames`, which frame each is left to the program. Nothing is open or queued: what was is gone, after a cut or without
// one, and also if Open is refused.
//
// Refused, tested in this order, with a place in the log: 1 (place 0) a length is no whole count in range, or `staging` does not have an
// area for each frame; 7 a block from keep-from to the newest one is missing or damaged, at the lowest such sequence, then a damaged slot
// after the newest, at its sequence (place 0 where no slot is valid); then whichever comes first in the log, 8 a block is out of order, or 9 a
// commit leaves more pages dirty than there are frames; last 8, at the newest block, the dirty pages could not be cleaned within the log.
// Refused, it gives the all-zero state, which every call that takes a state refuses with 2. After 7, 8 and 9 `frames` is all zero, after 1 as
// it was.
//
// Promise: promises/specs/Open.antt.
pub fn open(log: &[u8], home: &[u8], frames: &mut [u8], staging: &[u8]) -> Outcome<u64, Stop>
    ensures { Opens log.now home.now frames.old staging.now result frames.new }
{
    opening::open(log, home, frames, staging)
}

// Begin: opens a transaction of at most `u` updates, and reserves room for it in log, frames and staging, and for the cleaning of its pages.
//
// Once it is accepted, nothing of this transaction is refused for want of room. One transaction is open at a time.
//
// Refused, tested in this order, with nothing changed: 2 the state is not sound; 3 `u` is 0, above 16, above F, or 2 u + 1 is above N; 4 a
// transaction is open; 6 next + W + u + 1 is above 2^48; 5 H + W + D + V + 2 u + 1 is above N, or D + V + u above F: make Log steps and Clean
// steps, then call again (`waiting::begin` does).
//
// Promise: promises/specs/Begin.antt.
pub fn begin(state: State, u: usize) -> Outcome<(), Refusal>
    ensures { Begins state u result }
{
    let mut after = state;
    let answer = reserve(&mut after, u);
    Outcome {
        state: after,
        answer,
    }
}

fn reserve(state: &mut State, u: usize) -> Result<(), Refusal>
    ensures { Begins state.old u (record { state = state.new; answer = result }) }
{
    // One copy serves both tests, for speed.
    let before = *state;
    let verdict = soundness::checked_as(before, false);
    deciding::begin_refusal(verdict, before, u)?;
    state.reserved = u;
    state.described = 0;
    Ok(())
}

// Describe: adds one update to the open transaction: `bytes` for `page`, from `offset` on.
//
// The bytes are copied to a free area of `staging`, so the caller may use its own again; which area is left to the program, and no other byte of
// `staging` changes. Nothing reaches the log before End and Log step. Where two updates of a transaction change the same byte, the later one
// wins.
//
// Refused, tested in this order, with nothing changed: 2 the state is not sound; 1 `staging` is not F areas of 472 bytes; 4 no transaction is
// open; 3 the page is not below P, there is no byte or more than 472, or the update ends behind the page; 5 all reserved updates are described.
//
// Promise: promises/specs/Describe.antt.
pub fn describe(
    state: State,
    staging: &mut [u8],
    page: usize,
    offset: usize,
    bytes: &[u8],
) -> Outcome<(), Refusal>
    ensures { Describes state (update_of page offset bytes.now) staging.old result staging.new }
{
    let mut after = state;
    let answer = stage(&mut after, staging, page, offset, bytes);
    Outcome {
        state: after,
        answer,
    }
}

fn stage(
    state: &mut State,
    staging: &mut [u8],
    page: usize,
    offset: usize,
    bytes: &[u8],
) -> Result<(), Refusal>
    ensures { Describes state.old (update_of page offset bytes.now) staging.old (record { state = state.new; answer = result }) staging.new }
{
    let verdict = soundness::checked_as(*state, false);
    let length = bytes.len();
    let sums = deciding::describe_refusal(verdict, *state, staging.len(), page, offset, length)?;
    let count = sums.queued + state.described;
    let area = finding::free_area(state.staged, count, state.frames);
    let start = usize::from(area) * Block::NEW_BYTES;
    area::copy_part(staging, start, bytes, 0, length);
    state.staged[count] = Staged {
        page: page as u16,
        offset: offset as u16,
        length: length as u16,
        area,
    };
    state.described += 1;
    Ok(())
}

// End: ends the open transaction. It joins the queue, and its ticket is answered, one above the last ended one.
//
// What it reserved and did not use is free again. It is not committed yet: Log steps store it, and after a power cut before its commit no
// page shows it.
//
// Refused, tested in this order, with nothing changed: 2 the state is not sound; 4 no transaction is open; 10 nothing is described, and the
// transaction stays open.
//
// Promise: promises/specs/End.antt.
pub fn end(state: State) -> Outcome<u64, Refusal>
    ensures { Ends state result }
{
    let mut after = state;
    let answer = enqueue(&mut after);
    Outcome {
        state: after,
        answer,
    }
}

fn enqueue(state: &mut State) -> Result<u64, Refusal>
    ensures { Ends state.old (record { state = state.new; answer = result }) }
{
    let verdict = soundness::checked_as(*state, false);
    deciding::end_refusal(verdict, *state)?;
    let ticket = state.ticket + state.queued as u64 + 1;
    state.groups[state.queued] = state.described as u8;
    state.queued += 1;
    state.reserved = 0;
    state.described = 0;
    Ok(ticket)
}

// Log step: stores one block of the oldest queued transaction in its slot of the log: its next update, or, once all are stored, its commit.
//
// A transaction of n updates takes n + 1 steps. At an update it answers `Stored`, and `frames` stays as it is. At the commit the updates go to
// the frames, in order, and it answers `Settled` with the ticket: the transaction is committed, Read shows it, and so does every later opening. A
// page that was not dirty takes a free frame, and which one is left to the program. A cleaning of a page that the transaction changed becomes
// idle. The 512 bytes that were stored are slot `state.next % N`, of the state before the call; no other byte of `log` changes.
//
// Refused, tested in this order, with nothing changed: 2 the state is not sound; 1 an area has another length than at Open; 10 nothing is
// queued.
//
// Promise: promises/specs/LogStep.antt.
pub fn log_step(
    state: State,
    log: &mut [u8],
    home: &[u8],
    frames: &mut [u8],
    staging: &[u8],
) -> Outcome<Logged, Refusal>
    ensures { LogSteps state log.old home.now frames.old staging.now result log.new frames.new }
{
    let mut after = state;
    let answer = log_next(&mut after, log, home, frames, staging);
    Outcome {
        state: after,
        answer,
    }
}

fn log_next(
    state: &mut State,
    log: &mut [u8],
    home: &[u8],
    frames: &mut [u8],
    staging: &[u8],
) -> Result<Logged, Refusal>
    ensures { LogSteps state.old log.old home.now frames.old staging.now (record { state = state.new; answer = result }) log.new frames.new }
{
    let verdict = soundness::checked_as(*state, false);
    let sums = logging::log_refusal(
        verdict,
        *state,
        log.len(),
        home.len(),
        frames.len(),
        staging.len(),
    )?;
    let keep_from = state.next - sums.held as u64;
    let size = logging::group_size(*state);
    if state.stored < size {
        logging::store_update(*state, log, staging, keep_from);
        state.next += 1;
        state.stored += 1;
        return Ok(Logged::Stored);
    }
    let dirty = logging::store_commit(*state, log, home, frames, staging, keep_from);
    let staged = queue::shifted(state.staged, size);
    let groups = queue::shifted(state.groups, 1);
    let cleaning = queue::cleaning_left(*state, size);
    state.next += 1;
    state.dirty = dirty;
    state.staged = staged;
    state.groups = groups;
    state.cleaning = cleaning;
    state.queued -= 1;
    state.stored = 0;
    state.ticket += 1;
    Ok(Logged::Settled(state.ticket))
}

// Clean step: makes one store of a cleaning, which brings a dirty page home in three: its first half, its second half, its clean block in the log.
//
// Where no cleaning is under way, the page is the one with the smallest first group, among equals the one with the lowest number, and its first
// half is stored. With the clean block the page is dirty no more; its frame is free, and so are the log slots that only it needed. When to clean
// is the caller's choice: until then the page's bytes are safe in the log. The 512 bytes that were stored are half a page of `home`, or, with the
// clean block, slot `state.next % N` of `log`; no other byte changes.
//
// Refused, tested in this order, with nothing changed: 2 the state is not sound; 1 an area has another length than at Open; 10 no page is
// dirty; and where the clean block is next: 11 the oldest queued transaction has an update stored but not its commit, so make Log steps
// first; 6 next + W + (R + 1 if a transaction is open) is 2^48.
//
// Promise: promises/specs/CleanStep.antt.
pub fn clean_step(
    state: State,
    log: &mut [u8],
    home: &mut [u8],
    frames: &[u8],
) -> Outcome<(), Refusal>
    ensures { CleanSteps state log.old home.old frames.now result log.new home.new }
{
    let mut after = state;
    let answer = clean_next(&mut after, log, home, frames);
    Outcome {
        state: after,
        answer,
    }
}

fn clean_next(
    state: &mut State,
    log: &mut [u8],
    home: &mut [u8],
    frames: &[u8],
) -> Result<(), Refusal>
    ensures { CleanSteps state.old log.old home.old frames.now (record { state = state.new; answer = result }) log.new home.new }
{
    let verdict = soundness::checked_as(*state, false);
    let sums = cleaning::clean_refusal(verdict, *state, log.len(), home.len(), frames.len())?;
    let choice = cleaning::frame_to_clean(*state, sums.dirty);
    match cleaning::next_store(state.cleaning) {
        Next::Block => {
            cleaning::store_clean(*state, sums.dirty, log, frames, choice);
            state.dirty[choice.frame] = Dirty { page: 0, first: 0 };
            state.next += 1;
            state.cleaning = Cleaning::Idle;
        }
        Next::SecondHalf => {
            cleaning::store_second(home, frames, choice);
            state.cleaning = Cleaning::Third(choice.entry.page);
        }
        Next::FirstHalf => {
            cleaning::store_first(home, frames, choice);
            state.cleaning = Cleaning::Second(choice.entry.page);
        }
    }
    Ok(())
}

// Read: the 1,024 committed bytes of a page, as a part of `home` or of `frames`: nothing is copied.
//
// What is open or queued does not show. A copy's state is taken too, with the copy's home and frames.
//
// Refused, tested in this order: 2 the state is sound neither as a desk's nor as a copy's; 1 an area has another length than at Open; 3 `page`
// is not below P. The part is then empty, at the start of `home`.
//
// Promise: promises/specs/Read.antt.
pub fn read<'a>(state: State, home: &'a [u8], frames: &'a [u8], page: usize) -> Page<'a>
    ensures { Reads state home.entry frames.entry page (refusal_in result.answer) result.bytes }
{
    let verdict = soundness::checked_as(state, state.copy);
    let tested = deciding::read_refusal(verdict, state, home.len(), frames.len(), page);
    if let Err(refusal) = tested {
        return Page {
            bytes: &home[..0],
            answer: Err(refusal),
        };
    }
    match finding::frame_of(state, page as u16) {
        Some(frame) => {
            let start = frame * Block::PAGE;
            Page {
                bytes: &frames[start..start + Block::PAGE],
                answer: Ok(()),
            }
        }
        None => {
            let start = page * Block::PAGE;
            Page {
                bytes: &home[start..start + Block::PAGE],
                answer: Ok(()),
            }
        }
    }
}

// Settled: whether a ticket is committed. Once it is, it stays so over every power cut. A copy's state is taken too: whether the commit is in
// the copy's log.
//
// Refused, tested in this order: 2 the state is sound neither as a desk's nor as a copy's; 3 `ticket` is 0 or above the last ended one.
//
// Promise: promises/specs/Settled.antt.
pub fn settled(state: State, ticket: u64) -> Result<bool, Refusal>
    ensures { Settles state ticket result }
{
    let verdict = soundness::checked_as(state, state.copy);
    deciding::settled_refusal(verdict, state, ticket)?;
    Ok(ticket <= state.ticket)
}
