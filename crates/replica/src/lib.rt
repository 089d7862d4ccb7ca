// A broker's read-only copy of a desk: its opening and its feed. A copy has its own log, home and frames of the desk's sizes, is made from the
// desk's log and home, byte for byte, and is fed the desk's blocks. Read and Settled are the store's own calls, with the copy's state. What the
// caller lends, the refusals and all words: docs/CALLS.md.
#![tactic(auto)]

ghost use Rattle.std.specs.Prelude.{◌≡◌, true, ◌+◌, ◌≤◌, ◌<◌, length};
ghost use Rattle.block.specs.Sizes.{block_size, sequence_end};
ghost use Rattle.block.specs.Legal.{slot_of};
ghost use Rattle.block.specs.declared.Kind.TheVariants.{Clean};
ghost use Rattle.promises.specs.Areas.{log_length, with_slot};
ghost use Rattle.promises.specs.Blocks.{clean, kind_in};
ghost use Rattle.promises.specs.CopyOpen.{OpensCopy};
ghost use Rattle.promises.specs.Feed.{store_of, feeding, Feeds};
ghost use Rattle.feeding.specs.Tests.{block_in};
ghost use Rattle.cleaning.specs.Cleans.{made_before};
ghost use Rattle.replica.specs.Taking.{made_of, taken_with, Closing, Closes};

use block::{Block, Kind};
use cleaning::{Choice, Next};
use feeding::Decision;
use promises::{Cleaning, Dirty, Fed, Outcome, State, Stop};

// The store that is next for this page: the first half, unless the cleaning names the page and has stored more.
fn next_store(cleaning: Cleaning, page: usize) -> Next
    ensures { made_before result ≡ made_of cleaning page }
{
    match cleaning {
        Cleaning::Second(named) if usize::from(named) == page => Next::SecondHalf,
        Cleaning::Third(named) if usize::from(named) == page => Next::Block,
        _ => Next::FirstHalf,
    }
}

// The block is taken: its bytes go to its slot, and the copy stands behind it, with this ticket, these entries of the frames and a half group
// of so many updates.
fn take(
    state: State,
    log: &mut [u8],
    bytes: &[u8],
    ticket: u64,
    dirty: [Dirty; 32],
    stored: usize,
) -> Outcome<Fed, Stop>
    requires { (1 ≤ state.slots) × (state.slots ≤ 1024) × (length log.old ≡ log_length state.slots) × (length bytes.now ≡ block_size) × (state.next < sequence_end) }
    ensures { (result ≡ taken_with state ticket dirty stored) × (log.new ≡ with_slot log.old (slot_of state.slots state.next) bytes.now) }
{
    stepping::store_bytes(log, state.slots, state.next, bytes);
    Outcome {
        state: State {
            next: state.next + 1,
            ticket,
            dirty,
            stored,
            cleaning: Cleaning::Idle,
            ..state
        },
        answer: Ok(Fed::Taken),
    }
}

// The half group takes effect in the frames, from the copy's own log. The entries of the frames then.
fn close_group(state: State, log: &[u8], home: &[u8], frames: &mut [u8]) -> [Dirty; 32]
    requires { Closing state log.now (length home.now) (length frames.old) }
    ensures { Closes state log.now home.now frames.old result frames.new }
{
    let count = state.frames;
    let before = state.dirty;
    let mut seats = [0; 32];
    logging::pack(before, &mut seats[..count]);
    recovery::apply_group(
        &mut seats[..count],
        log,
        home,
        frames,
        state.next - state.stored as u64,
        state.stored,
    );
    table::seats::entries(&seats[..count])
}

// A clean block that passed every test: half of its page goes home, or it is taken.
fn feed_clean(
    state: State,
    log: &mut [u8],
    home: &mut [u8],
    frames: &[u8],
    bytes: &[u8],
    fed: Block,
    page: usize,
) -> Outcome<Fed, Stop>
    requires { (fed.kind ≡ Clean page) × (feeding state log.old home.old frames.now bytes.now ≡ store_of state frames.now (clean page) (block_in fed bytes.now)) }
    ensures { Feeds state log.old home.old frames.now bytes.now result log.new home.new frames.now }
{
    let mut dirty = state.dirty;
    let Some(frame) = queueing::finding::frame_of(state, page as u16) else {
        return take(state, log, bytes, state.ticket, dirty, 0);
    };
    let entry = dirty[frame];
    let choice = Choice { frame, entry };
    match next_store(state.cleaning, page) {
        Next::Block => {
            dirty[frame] = Dirty { page: 0, first: 0 };
            take(state, log, bytes, state.ticket, dirty, 0)
        }
        Next::SecondHalf => {
            cleaning::store_second(home, frames, choice);
            Outcome {
                state: state.with_cleaning(Cleaning::Third(entry.page)),
                answer: Ok(Fed::NotYet),
            }
        }
        Next::FirstHalf => {
            cleaning::store_first(home, frames, choice);
            Outcome {
                state: state.with_cleaning(Cleaning::Second(entry.page)),
                answer: Ok(Fed::NotYet),
            }
        }
    }
}

// A block that passed every test.
fn feed_passed(
    state: State,
    log: &mut [u8],
    home: &mut [u8],
    frames: &mut [u8],
    bytes: &[u8],
    fed: Block,
) -> Outcome<Fed, Stop>
    requires { feeding state log.old home.old frames.old bytes.now ≡ store_of state frames.old (kind_in fed.kind bytes.now) (block_in fed bytes.now) }
    ensures { Feeds state log.old home.old frames.old bytes.now result log.new home.new frames.new }
{
    match fed.kind {
        Kind::Update { index, .. } => take(state, log, bytes, state.ticket, state.dirty, index),
        Kind::Commit { .. } => {
            let dirty = close_group(state, log, home, frames);
            take(state, log, bytes, state.ticket + 1, dirty, 0)
        }
        Kind::Clean { page } => feed_clean(state, log, home, frames, bytes, fed, page),
    }
}

// Opens a copy: reads its log, finds what was committed, and gives the state to go on with. To be called once the copy is made, and after every
// power cut.
//
// As the store's Open, but there is no staging, and a half group at the log's end is kept: the next block that is fed may go on with it. It never
// writes log or home. Accepted, it answers the last committed ticket; committed pages that are not home yet are in `frames`.
//
// Refused, tested in this order, with a place in the log: 1 (place 0) a length is no whole count in range; 7, 8 and 9 as Open, with the half
// group's start counted in the last test. Refused, it gives the all-zero state. After 7, 8 and 9 `frames` is all zero, after 1 as it was.
//
// Promise: promises/specs/CopyOpen.antt.
pub fn open(log: &[u8], home: &[u8], frames: &mut [u8]) -> Outcome<u64, Stop>
    ensures { OpensCopy log.now home.now frames.old result frames.new }
{
    opening::open_copy(log, home, frames)
}

// Feed: gives the copy the 512 bytes of one of the desk's blocks.
//
// The copy takes the block of sequence `state.next`; of one below it answers `Had`, and nothing changes. A clean block of a dirty page takes three
// calls: the first two store a half of the page at home each and answer `NotYet`, so feed the block again; another block that is accepted in
// between makes that cleaning idle. Any other block is `Taken` at once: its bytes are in its slot, and a commit's updates, from the copy's own log,
// are in the frames. A call stores at most 512 bytes: slot `state.next % N` of `log`, of the state before the call, or half a page of `home`.
//
// Refused, tested in this order, with nothing changed, and with a place in the log: 2 the state is not a copy's sound one; 1 an area has another
// length than at the opening, or the block is not 512 bytes (place 0, as of 2, 13 and 14); 13 the bytes are no block of this layout; 14 its
// sequence is above next; and of the block of sequence next: 7 at a commit, the copy's own log lacks an update of the half group, at the lowest;
// 8 it is out of order, its keep-from is not the one that the rule gives, or the dirty pages could not be cleaned within the log; 9 a commit leaves
// more pages dirty than there are frames.
//
// Promise: promises/specs/Feed.antt.
pub fn feed(
    state: State,
    log: &mut [u8],
    home: &mut [u8],
    frames: &mut [u8],
    block: &[u8],
) -> Outcome<Fed, Stop>
    ensures { Feeds state log.old home.old frames.old block.now result log.new home.new frames.new }
{
    let sound = soundness::checked_as(state, true).is_some();
    match feeding::decide(sound, state, log, home.len(), frames.len(), block) {
        Err(stop) => Outcome {
            state,
            answer: Err(stop),
        },
        Ok(Decision::Had) => Outcome {
            state,
            answer: Ok(Fed::Had),
        },
        Ok(Decision::Passes(fed)) => feed_passed(state, log, home, frames, block, fed),
    }
}
