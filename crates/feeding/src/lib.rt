// What comes of a block that is fed to a copy, before anything is changed: how its bytes are judged, whether the copy's own log lacks an update
// of its half group, and the tests of Open's walk, of keep-from and of H + D, over where the copy stands.
#![tactic(auto)]

ghost use Rattle.std.specs.Prelude.{◌≡◌, true, cond, ◌&&◌, List, ℕ, ◌+◌, ◌-◌, ◌*◌, ◌≤◌, ◌<◌, length, eqb, leb};
ghost use Rattle.block.specs.Sizes.{block_size, sequence_end, group_most};
ghost use Rattle.block.specs.Legal.{legal, slot_of};
ghost use Rattle.block.specs.Slot.{judged, block_at};
ghost use Rattle.promises.specs.Answers.{refusal_in};
ghost use Rattle.promises.specs.Areas.{slots_in, log_length};
ghost use Rattle.promises.specs.Updates.{Update};
ghost use Rattle.promises.specs.Blocks.{update, commit, clean, kind_in, slot_in, slot_at, slots_of};
ghost use Rattle.promises.specs.Contents.{dirty_from};
ghost use Rattle.promises.specs.Sound.{copy_sound};
ghost use Rattle.promises.specs.Feed.{has_index, is_update, lacking as lacking_from, lacking_at, feeding};
ghost use Rattle.recovery.specs.Log.{updates_from};
ghost use Rattle.outline.specs.Marks.{marks_of, pages_of, earliest as earliest_of};
ghost use Rattle.feeding.specs.Tests.{page_of, start_of, lacking_in, Lacks, Tests, of_valid, Decides};

use block::{Block, Judged, Kind};
use outline::{Group, Mark, Marks, Pages};
use promises::{Dirty, Refusal, State, Stop};

// What is decided of a fed block that is not refused: the copy had it already; or it passed every test.
#[derive(Clone, Copy)]
pub enum Decision {
    Had,
    Passes(Block),
}

// How the 512 bytes of a fed block are judged: in the slot that they name.
fn judge_fed(bytes: &[u8], slots: usize, pages: usize) -> Judged
    requires { (length bytes.now ≡ block_size) × (0 < slots) }
    ensures { result ≡ judged slots pages (slot_of slots (block_at bytes.now).sequence) bytes.now }
{
    let header = block::header(bytes);
    block::judge(bytes, slots as u64, pages, header.sequence % slots as u64)
}

// Whether a block is an update with this index.
fn has_index(kind: Kind, wanted: usize) -> bool
    ensures { (bytes : List ℕ) → result ≡ has_index wanted (kind_in kind bytes) }
{
    match kind {
        Kind::Update { index, .. } => index == wanted,
        _ => false,
    }
}

// Whether a judged slot is the update of this sequence, with this index.
fn is_update(judged: Judged, sequence: u64, index: usize) -> bool
    ensures { (bytes : List ℕ) → result ≡ is_update sequence index (slot_in judged bytes) }
{
    match judged {
        Judged::Valid(block) => block.sequence == sequence && has_index(block.kind, index),
        _ => false,
    }
}

// Whether the slot of a sequence has the update of that sequence, with this index.
fn has_update(log: &[u8], pages: usize, sequence: u64, index: usize) -> bool
    requires { block_size ≤ length log.now }
    ensures { result ≡ is_update sequence index (slot_at (slots_in (length log.now)) pages log.now (slot_of (slots_in (length log.now)) sequence)) }
{
    let slots = log.len() / Block::SIZE;
    let slot = sequence % slots as u64;
    let bytes = recovery::slot_bytes(log, slot as usize);
    let judged = block::judge(bytes, slots as u64, pages, slot);
    is_update(judged, sequence, index)
}

// The lowest update that the log lacks of a half group of so many that starts at a sequence, if it lacks one.
pub fn lacking(log: &[u8], pages: usize, start: u64, count: usize) -> Option<u64>
    requires { (length log.now ≡ slots_in (length log.now) * block_size) × (1 ≤ slots_in (length log.now)) × (start + count ≤ sequence_end) }
    ensures { Lacks result start (lacking_from (slots_in (length log.now)) (slots_of (slots_in (length log.now)) pages log.now) count start 1) }
{
    for i in 0..count {
        let sequence = start + i as u64;
        if !has_update(log, pages, sequence, i + 1) {
            return Some(sequence);
        }
    }
    None
}

// The dirty pages of a state, without their bytes.
fn marks_of(dirty: &[Dirty; 32]) -> Marks
    ensures is { (frames : List ℕ) → result.items ≡ marks_of (dirty_from frames 0 dirty.now) }
    ensures few { length result.items ≤ 32 }
{
    let mut marks = Marks::new();
    for entry in dirty {
        if entry.first != 0 {
            marks.push(Mark {
                page: usize::from(entry.page),
                first: entry.first,
            });
        }
    }
    marks
}

// The page that an update changes; 0 for another block.
fn page_of(kind: Kind) -> usize
    ensures { result ≡ page_of kind }
{
    match kind {
        Kind::Update { page, .. } => page,
        _ => 0,
    }
}

// The half group of so many updates that starts at a sequence: its updates' pages, from the copy's own log.
fn group_of(log: &[u8], start: u64, count: usize) -> Group
    requires { (block_size ≤ length log.now) × (count ≤ group_most) × (start + count ≤ sequence_end) }
    ensures { (result.pages.items ≡ pages_of (updates_from log.now start count)) × (result.start ≡ start) }
{
    let mut pages = Pages::new();
    for i in 0..count {
        let block = recovery::header(log, start + i as u64);
        pages.push(page_of(block.kind));
    }
    Group { start, pages }
}

// Where a copy's half group starts; 0 where there is none.
fn half_start(state: State) -> u64
    requires { state.stored ≤ state.next }
    ensures { (result ≡ start_of state) × (result ≤ state.next) }
{
    if state.stored == 0 {
        return 0;
    }
    state.next - state.stored as u64
}

// Where the group of an update with this index starts: with index 1 at its own sequence.
fn own_start(state: State, index: usize) -> u64
    requires { state.stored ≤ state.next }
    ensures { (result ≡ cond (eqb index 1) state.next (start_of state)) × (result ≤ state.next) }
{
    if index == 1 {
        return state.next;
    }
    half_start(state)
}

// Whether keep-from is the one that the layout's rule gives over the pages that are dirty once the block is stored, and H + D is then at most N.
// `own`: what the block counts beside these pages; `half`: the half group's start once it is stored, next + 1 where there is none.
fn fits(state: State, keep_from: u64, marks: &Marks, own: u64, half: u64) -> bool
    requires { (length marks.now.items ≤ 48) × (half ≤ state.next + 1) × (state.next ≤ sequence_end) }
    ensures { result ≡ eqb keep_from (earliest_of own marks.now.items) && leb (state.next + 1 - earliest_of half marks.now.items + length marks.now.items) state.slots }
{
    let keep = outline::earliest(marks, own);
    let low = outline::earliest(marks, half);
    keep_from == keep && state.next + 1 - low + marks.len() as u64 <= state.slots as u64
}

// What an update of sequence next is refused with: 8, if anything.
fn update_refusal(state: State, index: usize, keep_from: u64, ticket: u64) -> Result<(), Refusal>
    requires { copy_sound state ≡ true }
    ensures { (log : List ℕ) (change : Update) → Tests state log (update index change) keep_from ticket (refusal_in result) }
{
    if !recovery::order::update_fits(index, ticket, state.stored, state.ticket) {
        return Err(Refusal::LogOutOfOrder);
    }
    let marks = marks_of(&state.dirty);
    let own = own_start(state, index);
    if !fits(state, keep_from, &marks, own, own) {
        return Err(Refusal::LogOutOfOrder);
    }
    Ok(())
}

// What a commit of sequence next is refused with, whose updates the copy's own log does not lack: 8 or 9, if anything.
fn commit_refusal(
    state: State,
    log: &[u8],
    updates: usize,
    keep_from: u64,
    ticket: u64,
) -> Result<(), Refusal>
    requires { (copy_sound state ≡ true) × (length log.now ≡ log_length state.slots) × (updates ≤ group_most) × (lacking_in state log.now ≡ 0) }
    ensures { Tests state log.now (commit updates) keep_from ticket (refusal_in result) }
{
    if !recovery::order::commit_fits(updates, ticket, state.stored, state.ticket) {
        return Err(Refusal::LogOutOfOrder);
    }
    let start = half_start(state);
    let mut marks = marks_of(&state.dirty);
    outline::mark_group(&mut marks, &group_of(log, start, state.stored));
    if !fits(state, keep_from, &marks, start, state.next + 1) {
        return Err(Refusal::LogOutOfOrder);
    }
    if state.frames < marks.len() {
        return Err(Refusal::TooFewFrames);
    }
    Ok(())
}

// What a clean block of sequence next is refused with: 8, if anything.
fn clean_refusal(state: State, page: usize, keep_from: u64, ticket: u64) -> Result<(), Refusal>
    requires { copy_sound state ≡ true }
    ensures { (log : List ℕ) → Tests state log (clean page) keep_from ticket (refusal_in result) }
{
    if !recovery::order::clean_fits(ticket, state.ticket) {
        return Err(Refusal::LogOutOfOrder);
    }
    let mut marks = marks_of(&state.dirty);
    outline::unmark_page(&mut marks, page);
    if !fits(state, keep_from, &marks, state.next, state.next + 1) {
        return Err(Refusal::LogOutOfOrder);
    }
    Ok(())
}

// The lowest update that the copy's own log lacks of its half group, at a commit, if it lacks one; nothing at another block.
fn lacking_at(state: State, log: &[u8], kind: Kind) -> Option<u64>
    requires { (copy_sound state ≡ true) × (length log.now ≡ log_length state.slots) }
    ensures { (bytes : List ℕ) → Lacks result 1 (lacking_at state (slots_of state.slots state.pages log.now) (kind_in kind bytes)) }
{
    match kind {
        Kind::Commit { .. } => lacking(
            log,
            state.pages,
            state.next - state.stored as u64,
            state.stored,
        ),
        _ => None,
    }
}

// What a block of sequence next is refused with, whose updates the copy's own log does not lack: 8 or 9, if anything.
fn turn_refusal(state: State, log: &[u8], block: Block) -> Result<(), Refusal>
    requires { (copy_sound state ≡ true) × (length log.now ≡ log_length state.slots) × (legal state.slots state.pages block ≡ true) × ((bytes : List ℕ) → lacking_at state (slots_of state.slots state.pages log.now) (kind_in block.kind bytes) ≡ 0) }
    ensures { (bytes : List ℕ) → Tests state log.now (kind_in block.kind bytes) block.keep_from block.ticket (refusal_in result) }
{
    match block.kind {
        Kind::Update { index, .. } => update_refusal(state, index, block.keep_from, block.ticket),
        Kind::Commit { updates } => commit_refusal(
            state,
            log,
            updates,
            block.keep_from,
            block.ticket,
        ),
        Kind::Clean { page } => clean_refusal(state, page, block.keep_from, block.ticket),
    }
}

// A refusal that has no place in the log.
fn nowhere(refusal: Refusal) -> Stop
    ensures { result ≡ record { refusal = refusal; place = 0 } }
{
    Stop { refusal, place: 0 }
}

// What is decided of a valid block.
fn decide_valid(state: State, log: &[u8], block: Block) -> Result<Decision, Stop>
    requires { (copy_sound state ≡ true) × (length log.now ≡ log_length state.slots) × (legal state.slots state.pages block ≡ true) }
    ensures { (home frames bytes : List ℕ) → Decides state frames bytes result (of_valid state log.now home frames block bytes) }
{
    if state.next < block.sequence {
        return Err(nowhere(Refusal::SequenceAhead));
    }
    if block.sequence < state.next {
        return Ok(Decision::Had);
    }
    if let Some(lost) = lacking_at(state, log, block.kind) {
        return Err(Stop {
            refusal: Refusal::LogDamaged,
            place: lost,
        });
    }
    match turn_refusal(state, log, block) {
        Ok(()) => Ok(Decision::Passes(block)),
        Err(refusal) => Err(Stop {
            refusal,
            place: state.next,
        }),
    }
}

// What is decided of fed bytes, from whether the state is a copy's sound one, and from the lengths of home and frames.
pub fn decide(
    holds: bool,
    state: State,
    log: &[u8],
    home: usize,
    frames: usize,
    bytes: &[u8],
) -> Result<Decision, Stop>
    requires { holds ≡ copy_sound state }
    ensures { (home_bytes frame_bytes : List ℕ) → length home_bytes ≡ home → length frame_bytes ≡ frames → Decides state frame_bytes bytes.now result (feeding state log.now home_bytes frame_bytes bytes.now) }
{
    if !holds {
        return Err(nowhere(Refusal::NotSound));
    }
    let fit = stepping::areas_fit(state, log.len(), home, frames);
    if !fit || bytes.len() != Block::SIZE {
        return Err(nowhere(Refusal::WrongLength));
    }
    match judge_fed(bytes, state.slots, state.pages) {
        Judged::Valid(block) => decide_valid(state, log, block),
        Judged::Damaged => Err(nowhere(Refusal::BadBlock)),
        Judged::Unused => Err(nowhere(Refusal::BadBlock)),
    }
}
