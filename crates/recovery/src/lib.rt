// Open's reading of a log: every slot judged once, the lowest missing block, a damaged end, and the walk from keep-from to the newest
// block. It knows blocks through the block crate's contracts, and dirty pages through the table's.
#![tactic(auto)]

pub mod order;

ghost use Rattle.std.specs.Prelude.{◌≡◌, List, true, false, not, ℕ, ◌+◌, ◌-◌, ◌*◌, ◌≤◌, ◌<◌, length, Ok, MatchResult};
ghost use Rattle.block.specs.Sizes.{block_size, page_size, sequence_end};
ghost use Rattle.block.specs.Legal.{slot_of};
ghost use Rattle.block.specs.Slot.{judged};
ghost use Rattle.promises.specs.Areas.{slot_bytes, slots_in, pages_in};
ghost use Rattle.promises.specs.Blocks.{slot_in, slot_at};
ghost use Rattle.promises.specs.Newest.{is_damaged};
ghost use Rattle.table.specs.Table.{Applies, AppliesAll};
ghost use Rattle.table.specs.Seats.{seated};
ghost use Rattle.recovery.specs.Log.{header_of, block_of, update_of, updates_from, Placed, Legal};
ghost use Rattle.recovery.specs.Slots.{sequence_of, Scanned, Lowest};
ghost use Rattle.recovery.specs.Walking.{walk_of, out_of_order_at, updated, Cleans, Commits, span_fits, Ready, Turns, Walks};

use block::{Block, Judged, Kind};
use promises::{Refusal, Stop};

// What the slots tell: the largest valid sequence, 0 where no slot is valid, and whether all are unused.
#[derive(Clone, Copy)]
pub struct Scan {
    pub newest: u64,
    pub unused: bool,
}

// Where a walk stands: the last committed ticket; a half group's first block and how many updates it has, 0 and 0 for none. The dirty pages
// are in the seats.
#[derive(Clone, Copy)]
pub struct Stage {
    pub ticket: u64,
    pub start: u64,
    pub count: usize,
}

// The sequence of a valid slot, else 0.
fn sequence_of(judged: Judged) -> u64
    ensures { result ≡ sequence_of judged }
{
    match judged {
        Judged::Valid(block) => block.sequence,
        _ => 0,
    }
}

// Judges every slot, once. Its sequence goes to the list of sequences.
pub fn judge_all(log: &[u8], pages: usize, sequences: &mut [u64]) -> Scan
    requires { (length log.now ≡ length sequences.old * block_size) × (0 < length sequences.old) × (length sequences.old ≤ 1024) }
    ensures { Scanned (length sequences.old) pages log.now result sequences.new }
{
    let slots = sequences.len();
    let mut newest = 0;
    let mut unused = true;
    for (i, sequence) in sequences.iter_mut().enumerate() {
        let at = i * Block::SIZE;
        let judged = block::judge(&log[at..at + Block::SIZE], slots as u64, pages, i as u64);
        *sequence = sequence_of(judged);
        newest = newest.max(*sequence);
        unused &= matches!(judged, Judged::Unused);
    }
    Scan { newest, unused }
}

// The slot after `slot`: if `slot` is that of sequence s, the answer is that of s + 1.
fn slot_after(slot: usize, slots: usize) -> usize
    requires { slot < slots }
    ensures { (result < slots) × ((s : ℕ) → slot ≡ slot_of slots s → result ≡ slot_of slots (s + 1)) }
{
    if slot + 1 == slots {
        return 0;
    }
    slot + 1
}

// The lowest of the sequences from first to last that is not in its slot; one more than last where all are.
pub fn missing(sequences: &[u64], first: u64, last: u64) -> u64
    requires { (0 < length sequences.now) × (length sequences.now ≤ 1024) × (first ≤ last) × (last < sequence_end) }
    ensures { Lowest sequences.now first last result }
{
    let slots = sequences.len();
    let mut slot = (first % slots as u64) as usize;
    for s in first..=last {
        if sequences[slot] != s {
            return s;
        }
        slot = slot_after(slot, slots);
    }
    last + 1
}

// The bytes of a slot: a part of the log.
pub fn slot_bytes(log: &[u8], slot: usize) -> &[u8]
    requires { slot < slots_in (length log.now) }
    ensures { (result.now ≡ slot_bytes log.now slot) × (length result.now ≡ block_size) }
{
    let at = slot * Block::SIZE;
    &log[at..at + Block::SIZE]
}

// Whether the 512 bytes of a slot, one of so many, are damaged there, for a home of so many pages.
pub fn slot_damaged(bytes: &[u8], slots: u64, pages: usize, slot: u64) -> bool
    requires { (length bytes.now ≡ block_size) × (0 < slots) }
    ensures { result ≡ is_damaged (slot_in (judged slots pages slot bytes.now) bytes.now) }
{
    matches!(block::judge(bytes, slots, pages, slot), Judged::Damaged)
}

// Whether the slot that a sequence goes to is damaged.
pub fn damaged_at(log: &[u8], pages: usize, s: u64) -> bool
    requires { block_size ≤ length log.now }
    ensures { result ≡ is_damaged (slot_at (slots_in (length log.now)) pages log.now (slot_of (slots_in (length log.now)) s)) }
{
    let slots = log.len() / Block::SIZE;
    let slot = s % slots as u64;
    slot_damaged(slot_bytes(log, slot as usize), slots as u64, pages, slot)
}

// The header in the slot that a sequence goes to.
pub fn header(log: &[u8], s: u64) -> Block
    requires { block_size ≤ length log.now }
    ensures { result ≡ header_of log.now s }
{
    let slots = log.len() / Block::SIZE;
    let slot = (s % slots as u64) as usize;
    block::header(slot_bytes(log, slot))
}

// The stored update of a sequence, in its slot, goes to its page's frame. False: there is no frame for the page, and nothing changes.
fn apply_stored(
    seats: &mut [u64],
    log: &[u8],
    home: &[u8],
    frames: &mut [u8],
    s: u64,
    slot: usize,
    group: u64,
) -> bool
    requires { (length seats.old ≤ 32) × (length frames.old ≡ length seats.old * page_size) × (block_size ≤ length log.now) × (pages_in (length home.now) ≤ 4096) × (1 ≤ group) × (group < sequence_end) × Placed (pages_in (length home.now)) (header_of log.now s).kind × (slot ≡ slot_of (slots_in (length log.now)) s) }
    ensures { Applies (seated false seats.old) home.now frames.old (update_of log.now s) group (seated (not result) seats.new) frames.new }
{
    let stored = slot_bytes(log, slot);
    let block = block::header(stored);
    match block.kind {
        Kind::Update {
            page,
            offset,
            length,
            ..
        } => {
            let bytes = block::new_bytes(stored, length);
            table::seats::apply(seats, home, frames, page, offset, bytes, group)
        }
        _ => true,
    }
}

// The group of so many updates that starts at a sequence takes effect. False: a page found no frame, and the rest is left out.
pub fn apply_group(
    seats: &mut [u64],
    log: &[u8],
    home: &[u8],
    frames: &mut [u8],
    start: u64,
    count: usize,
) -> bool
    requires { (length seats.old ≤ 32) × (length frames.old ≡ length seats.old * page_size) × (block_size ≤ length log.now) × (pages_in (length home.now) ≤ 4096) × (1 ≤ start) × (start + count ≤ sequence_end) × ((i : ℕ) → i < count → Placed (pages_in (length home.now)) (header_of log.now (start + i)).kind) }
    ensures { AppliesAll (seated false seats.old) home.now frames.old (updates_from log.now start count) start (seated (not result) seats.new) frames.new }
{
    let slots = log.len() / Block::SIZE;
    let mut slot = (start % slots as u64) as usize;
    for i in 0..count {
        if !apply_stored(seats, log, home, frames, start + i as u64, slot, start) {
            return false;
        }
        slot = slot_after(slot, slots);
    }
    true
}

// Refusal 8 at a place.
fn out_of_order(place: u64) -> Stop
    ensures { result ≡ out_of_order_at place }
{
    Stop {
        refusal: Refusal::LogOutOfOrder,
        place,
    }
}

// An update is walked over: a new index 1 voids a half group.
fn walk_update(stage: Stage, sequence: u64, index: usize, ticket: u64) -> Result<Stage, Stop>
    requires { stage.count < sequence_end }
    ensures { (seats : List ℕ) → walk_of result seats ≡ updated (walk_of (Ok stage) seats) sequence index ticket }
{
    if !order::update_fits(index, ticket, stage.count, stage.ticket) {
        return Err(out_of_order(sequence));
    }
    if index == 1 {
        return Ok(Stage {
            start: sequence,
            count: 1,
            ..stage
        });
    }
    Ok(Stage {
        count: index,
        ..stage
    })
}

// A clean is walked over: it voids a half group, and its page is dropped.
fn walk_clean(
    stage: Stage,
    seats: &mut [u64],
    s: u64,
    page: usize,
    ticket: u64,
) -> Result<Stage, Stop>
    requires { length seats.old ≤ 32 }
    ensures { Cleans (walk_of (Ok stage) seats.old) s page ticket (walk_of result seats.new) }
{
    if !order::clean_fits(ticket, stage.ticket) {
        return Err(out_of_order(s));
    }
    table::seats::drop_page(seats, page);
    Ok(Stage {
        start: 0,
        count: 0,
        ..stage
    })
}

// A commit is walked over: its group takes effect.
fn walk_commit(
    stage: Stage,
    seats: &mut [u64],
    log: &[u8],
    home: &[u8],
    frames: &mut [u8],
    s: u64,
    updates: usize,
    ticket: u64,
) -> Result<Stage, Stop>
    requires { (length seats.old ≤ 32) × (length frames.old ≡ length seats.old * page_size) × (block_size ≤ length log.now) × (pages_in (length home.now) ≤ 4096) × (s < sequence_end) × Ready log.now home.now s (walk_of (Ok stage) seats.old) }
    ensures { Commits log.now home.now (walk_of (Ok stage) seats.old) frames.old s updates ticket (walk_of result seats.new) frames.new }
{
    if !order::commit_fits(updates, ticket, stage.count, stage.ticket) {
        return Err(out_of_order(s));
    }
    if !apply_group(seats, log, home, frames, stage.start, stage.count) {
        return Err(Stop {
            refusal: Refusal::TooFewFrames,
            place: s,
        });
    }
    Ok(Stage {
        ticket,
        start: 0,
        count: 0,
    })
}

// The block of a sequence, in its slot, is walked over.
fn turn(
    stage: Stage,
    seats: &mut [u64],
    log: &[u8],
    home: &[u8],
    frames: &mut [u8],
    s: u64,
    slot: usize,
) -> Result<Stage, Stop>
    requires { (length seats.old ≤ 32) × (length frames.old ≡ length seats.old * page_size) × (block_size ≤ length log.now) × (pages_in (length home.now) ≤ 4096) × (s < sequence_end) × (slot ≡ slot_of (slots_in (length log.now)) s) × Legal log.now home.now s × Ready log.now home.now s (walk_of (Ok stage) seats.old) }
    ensures { Turns log.now home.now s (block_of log.now s).kind (block_of log.now s).ticket (walk_of (Ok stage) seats.old) frames.old (walk_of result seats.new) frames.new }
{
    let stored = slot_bytes(log, slot);
    let block = block::header(stored);
    match block.kind {
        Kind::Update { index, .. } => walk_update(stage, s, index, block.ticket),
        Kind::Commit { updates } => walk_commit(
            stage,
            seats,
            log,
            home,
            frames,
            s,
            updates,
            block.ticket,
        ),
        Kind::Clean { page } => walk_clean(stage, seats, s, page, block.ticket),
    }
}

// The blocks from first to last are walked over, by a walk that goes on. The slot goes round beside the sequence.
fn walk_on(
    mut stage: Stage,
    seats: &mut [u64],
    log: &[u8],
    home: &[u8],
    frames: &mut [u8],
    first: u64,
    last: u64,
) -> Result<Stage, Stop>
    requires { (length seats.old ≤ 32) × (length frames.old ≡ length seats.old * page_size) × (block_size ≤ length log.now) × (pages_in (length home.now) ≤ 4096) × (first ≤ last + 1) × (last < sequence_end) × ((s : ℕ) → first ≤ s → s ≤ last → Legal log.now home.now s) × Ready log.now home.now first (walk_of (Ok stage) seats.old) }
    ensures { Walks log.now home.now first last (walk_of (Ok stage) seats.old) frames.old (walk_of result seats.new) frames.new }
{
    let slots = log.len() / Block::SIZE;
    let mut slot = (first % slots as u64) as usize;
    for s in first..=last {
        stage = turn(stage, seats, log, home, frames, s, slot)?;
        slot = slot_after(slot, slots);
    }
    Ok(stage)
}

// The blocks from first to last are walked over; nothing happens to a walk that was refused before.
pub fn walk_all(
    stage: Result<Stage, Stop>,
    seats: &mut [u64],
    log: &[u8],
    home: &[u8],
    frames: &mut [u8],
    first: u64,
    last: u64,
) -> Result<Stage, Stop>
    requires { (length seats.old ≤ 32) × (length frames.old ≡ length seats.old * page_size) × (block_size ≤ length log.now) × (pages_in (length home.now) ≤ 4096) × (first ≤ last + 1) × (last < sequence_end) × ((s : ℕ) → first ≤ s → s ≤ last → Legal log.now home.now s) × ((walk_of stage seats.old).refusal ≡ 0 → Ready log.now home.now first (walk_of stage seats.old)) }
    ensures { Walks log.now home.now first last (walk_of stage seats.old) frames.old (walk_of result seats.new) frames.new }
{
    walk_on(stage?, seats, log, home, frames, first, last)
}

// Whether H + D is at most the count of slots; an own number, a half group's start or next, counts beside the first groups.
pub fn span_fits(seats: &[u64], slots: usize, next: u64, own: u64) -> bool
    requires { (length seats.now ≤ 32) × (slots ≤ 1024) × (next ≤ sequence_end) × (own ≤ next) }
    ensures { result ≡ span_fits (seated false seats.now) slots next own }
{
    let held = next - table::seats::oldest(seats, own);
    let dirty = table::seats::dirty_pages(seats) as u64;
    held + dirty <= slots as u64
}

// The last test: H + D above the count of slots is 8 at the newest block; an own number counts as in `span_fits`.
pub fn last_test(seats: &[u64], slots: usize, last: u64, own: u64) -> Result<(), Stop>
    requires { (length seats.now ≤ 32) × (slots ≤ 1024) × (last < sequence_end) × (own ≤ last + 1) }
    ensures { MatchResult result (λ unit. span_fits (seated false seats.now) slots (last + 1) own ≡ true) (λ stop. (span_fits (seated false seats.now) slots (last + 1) own ≡ false) × (stop ≡ out_of_order_at last)) }
{
    if !span_fits(seats, slots, last + 1, own) {
        return Err(out_of_order(last));
    }
    Ok(())
}
