// What each call is refused with; tested in the order that docs/CALLS.md gives.
ghost use Rattle.std.specs.Prelude.{◌≡◌, ◌+◌, ◌≤◌, leb, IfOk, is_some};
ghost use Rattle.block.specs.Sizes.{sequence_end};
ghost use Rattle.promises.specs.Answers.{refusal_in};
ghost use Rattle.promises.specs.Sums.{waiting_blocks};
ghost use Rattle.promises.specs.Sound.{sound, readable};
ghost use Rattle.promises.specs.Format.{format_refusal};
ghost use Rattle.promises.specs.Begin.{begin_in_range, begin_has_room, begin_refusal};
ghost use Rattle.promises.specs.Describe.{describe_refusal};
ghost use Rattle.promises.specs.End.{end_refusal};
ghost use Rattle.promises.specs.Settled.{settled_refusal};
ghost use Rattle.promises.specs.Read.{read_refusal};
ghost use Rattle.soundness.specs.Summed.{Summed, Small};
ghost use Rattle.soundness.specs.Verdicts.{Judges};

use block::Block;
use promises::{Refusal, State};
use soundness::sums::Sums;

// Format, of the log's length: 1.
pub fn format_refusal(length: usize) -> Result<(), Refusal>
    ensures refusal { refusal_in result ≡ format_refusal length }
    ensures most { refusal_in result ≤ 11 }
{
    let slots = length / Block::SIZE;
    if (slots * Block::SIZE == length) & (8 <= slots) & (slots <= 1024) {
        return Ok(());
    }
    Err(Refusal::WrongLength)
}

// Whether u is a number of updates that Begin can reserve.
fn begin_in_range(state: State, u: usize) -> bool
    ensures { result ≡ begin_in_range state u }
{
    if 16 < u {
        return false;
    }
    (1 <= u) & (u <= 16) & (u <= state.frames) & (2 * u + 1 <= state.slots)
}

// Whether the sequences last for a group of u updates more.
fn sequences_left(state: State, sums: Sums, u: usize) -> bool
    requires { Summed state sums × Small state sums × (u ≤ 16) }
    ensures { result ≡ leb (state.next + waiting_blocks state + u + 1) sequence_end }
{
    state.next + sums.waiting as u64 + u as u64 + 1 <= soundness::SEQUENCE_END
}

// Whether slots and frames last for u updates more.
fn begin_has_room(state: State, sums: Sums, u: usize) -> bool
    requires { Summed state sums × Small state sums × (u ≤ 16) }
    ensures { result ≡ begin_has_room state u }
{
    let slots = sums.held + sums.waiting + sums.dirty + sums.queued + 2 * u + 1;
    let frames = sums.dirty + sums.queued + u;
    (slots <= state.slots) & (frames <= state.frames)
}

// Begin, of the verdict on the state and of u: 2; 3; 4; 6; 5.
pub fn begin_refusal(verdict: Option<Sums>, state: State, u: usize) -> Result<(), Refusal>
    requires { Judges state verdict }
    ensures refusal { refusal_in result ≡ begin_refusal state u }
    ensures most { refusal_in result ≤ 11 }
{
    let sums = verdict.ok_or(Refusal::NotSound)?;
    if !begin_in_range(state, u) {
        return Err(Refusal::OutOfRange);
    }
    if state.reserved != 0 {
        return Err(Refusal::WrongMoment);
    }
    if !sequences_left(state, sums, u) {
        return Err(Refusal::SequencesUsedUp);
    }
    if !begin_has_room(state, sums, u) {
        return Err(Refusal::Full);
    }
    Ok(())
}

// Describe, of the verdict on the state, of staging's length and of an update's place and length: 2; 1; 4; 3; 5. Where it is accepted, the
// sums over the state.
pub fn describe_refusal(
    verdict: Option<Sums>,
    state: State,
    staging: usize,
    page: usize,
    offset: usize,
    count: usize,
) -> Result<Sums, Refusal>
    requires { is_some verdict ≡ sound state }
    ensures refusal { refusal_in result ≡ describe_refusal state staging page offset count }
    ensures most { refusal_in result ≤ 11 }
    ensures sums { Judges state verdict → IfOk result (Summed state) }
{
    let sums = verdict.ok_or(Refusal::NotSound)?;
    if staging != state.frames * Block::NEW_BYTES {
        return Err(Refusal::WrongLength);
    }
    if state.reserved == 0 {
        return Err(Refusal::WrongMoment);
    }
    if !block::legal_place(state.pages, page, offset, count) {
        return Err(Refusal::OutOfRange);
    }
    if state.described < state.reserved {
        return Ok(sums);
    }
    Err(Refusal::Full)
}

// End, of the verdict on the state: 2; 4; 10.
pub fn end_refusal(verdict: Option<Sums>, state: State) -> Result<(), Refusal>
    requires { is_some verdict ≡ sound state }
    ensures refusal { refusal_in result ≡ end_refusal state }
    ensures most { refusal_in result ≤ 11 }
{
    verdict.ok_or(Refusal::NotSound)?;
    if state.reserved == 0 {
        return Err(Refusal::WrongMoment);
    }
    if state.described == 0 {
        return Err(Refusal::NothingToDo);
    }
    Ok(())
}

// Settled, of the verdict on the state, a desk's or a copy's, and of a ticket: 2; 3.
pub fn settled_refusal(verdict: Option<Sums>, state: State, ticket: u64) -> Result<(), Refusal>
    requires { is_some verdict ≡ readable state }
    ensures refusal { refusal_in result ≡ settled_refusal state ticket }
    ensures most { refusal_in result ≤ 11 }
{
    verdict.ok_or(Refusal::NotSound)?;
    let last = state.ticket + state.queued as u64;
    if (1 <= ticket) & (ticket <= last) {
        return Ok(());
    }
    Err(Refusal::OutOfRange)
}

// Read, of the verdict on the state, a desk's or a copy's, of the lengths of home and frames and of the page: 2; 1; 3.
pub fn read_refusal(
    verdict: Option<Sums>,
    state: State,
    home: usize,
    frames: usize,
    page: usize,
) -> Result<(), Refusal>
    requires { is_some verdict ≡ readable state }
    ensures refusal { refusal_in result ≡ read_refusal state home frames page }
    ensures most { refusal_in result ≤ 11 }
{
    verdict.ok_or(Refusal::NotSound)?;
    let right = (home == state.pages * Block::PAGE) & (frames == state.frames * Block::PAGE);
    if !right {
        return Err(Refusal::WrongLength);
    }
    if page < state.pages {
        return Ok(());
    }
    Err(Refusal::OutOfRange)
}
