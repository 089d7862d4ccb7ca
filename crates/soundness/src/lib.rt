// Whether a state is sound, a desk's or a copy's, for any bits in it, and the sums D, H, W and V over it (docs/CALLS.md). Knows the state
// alone, not the areas.
#![tactic(auto)]

pub mod dirty;
pub mod numbers;
pub mod queued;
pub mod sums;

ghost use Rattle.std.specs.Prelude.{◌≡◌, get_or};
ghost use Rattle.promises.specs.Contents.{groups_of};
ghost use Rattle.soundness.specs.Tests.{in_range, kind_legal};
ghost use Rattle.soundness.specs.Verdicts.{JudgesAs};

use promises::State;
use sums::Sums;

// The first number that is no sequence: sequences go up to 2^48 - 1.
pub const SEQUENCE_END: u64 = 281474976710656;

// Whether the state's single numbers are in range: what keeps the sums from wrapping.
fn in_range(state: State) -> bool
    ensures { result ≡ in_range state }
{
    let stored = state.stored as u64;
    (8 <= state.slots)
        & (state.slots <= 1024)
        & (1 <= state.pages)
        & (state.pages <= 4096)
        & (1 <= state.frames)
        & (state.frames <= 32)
        & (state.queued <= 32)
        & (state.reserved <= 16)
        & (state.described <= state.reserved)
        & (state.next <= SEQUENCE_END)
        & (stored < state.next)
}

// Whether a half-stored group is as it has to be in a copy's state or in a desk's, and the state is of that kind. `oldest`: how many updates
// the oldest queued group has, 0 where none is queued.
fn kind_legal(state: State, copy: bool, oldest: usize) -> bool
    requires { oldest ≡ get_or (groups_of state) 0 0 }
    ensures { result ≡ kind_legal copy state }
{
    if copy {
        return (state.queued == 0) & (state.reserved == 0) & state.copy;
    }
    (state.stored <= oldest) & !state.copy
}

// The sums over a state that is sound as a copy's or as a desk's; none where it is not.
pub fn checked_as(state: State, copy: bool) -> Option<Sums>
    ensures { JudgesAs copy state result }
{
    if !in_range(state) {
        return None;
    }
    let sizes = queued::sizes_of(state.groups, state.queued);
    if !(sizes.legal & kind_legal(state, copy, sizes.oldest)) {
        return None;
    }
    let mut list = [0u16; 32];
    let survey = dirty::survey_of(
        state.dirty,
        state.pages,
        state.frames,
        state.next,
        state.next - state.stored as u64,
        &mut list[..],
    );
    let queued = sizes.updates;
    let sums = Sums {
        held: (state.next - survey.low) as usize,
        waiting: (queued + state.queued).saturating_sub(state.stored),
        dirty: survey.count,
        queued,
    };
    if !sums::fit(state, sums) {
        return None;
    }
    if !dirty::pages_sound(state.cleaning, survey.legal, &list[..survey.count]) {
        return None;
    }
    let count = queued + state.described;
    if count != 0 && !queued::staged_sound(state.staged, count, state.pages, state.frames) {
        return None;
    }
    Some(sums)
}
