// Log step in parts: what it is refused with, the store of an update, and the store of a commit, whose updates go to the frames. The
// call itself stands in the store.
#![tactic(auto)]

ghost use Rattle.std.specs.Prelude.{◌≡◌, false, not, map, ℕ, ◌≤◌, ◌<◌, length, take, get_or, IfOk, is_some};
ghost use Rattle.block.specs.Sizes.{sequence_end};
ghost use Rattle.promises.specs.Blocks.{stored};
ghost use Rattle.promises.specs.Contents.{waiting};
ghost use Rattle.promises.specs.Answers.{refusal_in};
ghost use Rattle.promises.specs.Sound.{sound};
ghost use Rattle.soundness.specs.Summed.{Summed};
ghost use Rattle.soundness.specs.Verdicts.{Judges};
ghost use Rattle.promises.specs.LogStep.{log_refusal};
ghost use Rattle.promises.specs.States.{free};
ghost use Rattle.table.specs.Seats.{cleared, entry_in, seated};
ghost use Rattle.table.specs.Table.{Applies, AppliesAll};
ghost use Rattle.logging.specs.Logging.{no_staged, size_of, group_of, Placed, Lent, Ready, update_at, Commits};
ghost use Rattle.promises.specs.Areas.{home_length, frames_length, pages_in};

use block::Block;
use promises::{Dirty, Refusal, Staged, State};
use soundness::sums::Sums;

// What Log step is refused with: from the verdict on the state, the state and the lengths of the lent areas. Where it is accepted, the sums
// over the state.
pub fn log_refusal(
    verdict: Option<Sums>,
    state: State,
    log: usize,
    home: usize,
    frames: usize,
    staging: usize,
) -> Result<Sums, Refusal>
    requires { is_some verdict ≡ sound state }
    ensures refusal { refusal_in result ≡ log_refusal state log home frames staging }
    ensures most { refusal_in result ≤ 11 }
    ensures sums { Judges state verdict → IfOk result (Summed state) }
{
    let sums = verdict.ok_or(Refusal::NotSound)?;
    let fit = stepping::areas_fit(state, log, home, frames);
    if !(fit & (staging == state.frames * Block::NEW_BYTES)) {
        return Err(Refusal::WrongLength);
    }
    if state.queued == 0 {
        return Err(Refusal::NothingToDo);
    }
    Ok(sums)
}

// How many updates the oldest queued group has.
pub fn group_size(state: State) -> usize
    ensures { result ≡ size_of state }
{
    usize::from(state.groups[0])
}

// Stores the next update of the oldest group.
pub fn store_update(state: State, log: &mut [u8], staging: &[u8], keep_from: u64)
    requires { (state.stored < size_of state) × Ready state (length log.old) (home_length state.pages) (frames_length state.frames) (length staging.now) }
    ensures { log.new ≡ stored state.slots log.old state.next (update_at state staging.now keep_from) }
{
    let index = state.stored;
    // The field is copied out first, for speed: used in the state itself, more is copied.
    let all = state.staged;
    let staged = all[index];
    let at = usize::from(staged.area) * Block::NEW_BYTES;
    let length = usize::from(staged.length);
    let block = Block::update(
        state.next,
        keep_from,
        index + 1,
        usize::from(staged.page),
        usize::from(staged.offset),
        length,
        state.ticket,
    );
    stepping::store(log, state.slots, block, &staging[at..at + length]);
}

// The dirty pages of a state as seats, a number for each frame.
pub fn pack(dirty: [Dirty; 32], seats: &mut [u64])
    requires { (length seats.old ≤ 32) × ((i : ℕ) → (get_or dirty i free).first < sequence_end) }
    ensures { (length seats.new ≡ length seats.old) × (map entry_in seats.new ≡ map cleared (take (length seats.old) dirty)) }
{
    // By index: a proof knows nothing of seats after a zip with their iter_mut.
    for (i, seat) in seats.iter_mut().enumerate() {
        let entry = dirty[i];
        *seat = entry.first * 65536 + u64::from(entry.page);
    }
}

// A staged update of the group that started at this sequence takes effect in its page's frame. False: there is no frame for the page, and
// nothing changes.
pub fn apply_staged(
    seats: &mut [u64],
    staged: Staged,
    group: u64,
    home: &[u8],
    frames: &mut [u8],
    staging: &[u8],
) -> bool
    requires { Lent (length seats.old) (length home.now) (length frames.old) (length staging.now) group × Placed (pages_in (length home.now)) (length seats.old) staged }
    ensures { Applies (seated false seats.old) home.now frames.old (waiting staging.now staged) group (seated (not result) seats.new) frames.new }
{
    let at = usize::from(staged.area) * Block::NEW_BYTES;
    let length = usize::from(staged.length);
    table::seats::apply(
        seats,
        home,
        frames,
        usize::from(staged.page),
        usize::from(staged.offset),
        &staging[at..at + length],
        group,
    )
}

// The group of the first size staged updates takes effect, update by update. False: a page found no frame, and the rest is left out.
pub fn apply_group(
    seats: &mut [u64],
    staged: [Staged; 32],
    size: usize,
    group: u64,
    home: &[u8],
    frames: &mut [u8],
    staging: &[u8],
) -> bool
    requires { Lent (length seats.old) (length home.now) (length frames.old) (length staging.now) group × (size ≤ 32) × ((i : ℕ) → i < size → Placed (pages_in (length home.now)) (length seats.old) (get_or staged i no_staged)) }
    ensures { AppliesAll (seated false seats.old) home.now frames.old (group_of staged size staging.now) group (seated (not result) seats.new) frames.new }
{
    for update in &staged[..size] {
        if !apply_staged(seats, *update, group, home, frames, staging) {
            return false;
        }
    }
    true
}

// Stores the commit of the oldest group, which then takes effect. The pages that are dirty then.
pub fn store_commit(
    state: State,
    log: &mut [u8],
    home: &[u8],
    frames: &mut [u8],
    staging: &[u8],
    keep_from: u64,
) -> [Dirty; 32]
    requires { Ready state (length log.old) (length home.now) (length frames.old) (length staging.now) }
    ensures { Commits state log.old home.now frames.old staging.now keep_from result log.new frames.new }
{
    let size = group_size(state);
    let block = Block::commit(state.next, keep_from, size, state.ticket + 1);
    stepping::store(log, state.slots, block, &staging[..0]);
    // The fields are copied out first, for speed: used in the state itself, more is copied.
    let before = state.dirty;
    let staged = state.staged;
    let mut room = [0; 32];
    let seats = &mut room[..state.frames];
    pack(before, seats);
    apply_group(
        seats,
        staged,
        size,
        state.next - state.stored as u64,
        home,
        frames,
        staging,
    );
    table::seats::entries(seats)
}
