// The sums over a state.
ghost use Rattle.std.specs.Prelude.{◌≡◌, ◌≤◌};
ghost use Rattle.promises.specs.Sums.{owed_blocks};
ghost use Rattle.soundness.specs.Tests.{fitting};
ghost use Rattle.soundness.specs.Summed.{Addable, Summed};

use promises::State;

// H, W, D and V.
#[derive(Clone, Copy)]
pub struct Sums {
    pub held: usize,
    pub waiting: usize,
    pub dirty: usize,
    pub queued: usize,
}

// What the open transaction owes: R + 1 blocks, none where none is open.
pub fn owed(state: State) -> usize
    requires { state.reserved ≤ 16 }
    ensures { (result ≡ owed_blocks state) × (result ≤ 17) }
{
    if state.reserved == 0 {
        0
    } else {
        state.reserved + 1
    }
}

// Whether the ticket is below the oldest group's start and the sums are within the sizes.
pub fn fit(state: State, sums: Sums) -> bool
    requires { Addable state × Summed state sums }
    ensures { result ≡ fitting state }
{
    let owed = owed(state);
    let reserved = state.reserved;
    let start = state.next - state.stored as u64;
    let slots = sums.held + sums.waiting + sums.dirty + sums.queued + reserved + owed;
    let frames = sums.dirty + sums.queued + reserved;
    let sequences = state.next + sums.waiting as u64 + owed as u64;
    (state.ticket < start)
        & (slots <= state.slots)
        & (frames <= state.frames)
        & (sequences <= crate::SEQUENCE_END)
}
