// Where accepted calls find room or a page.
ghost use Rattle.std.specs.Prelude.{◌≡◌, true, false, ◌<◌, ◌≤◌, take, IfSome};
ghost use Rattle.promises.specs.Sound.{readable, member, areas_of};
ghost use Rattle.promises.specs.Read.{held_in};
ghost use Rattle.queueing.specs.Queueing.{held_by};

use promises::{Staged, State};

// The lowest staging area that none of the count waiting updates holds.
pub fn free_area(staged: [Staged; 32], count: usize, frames: usize) -> u8
    requires { (count < frames) × (frames ≤ 32) }
    ensures { (result < frames) × (member result (areas_of (take count staged)) ≡ false) }
{
    let waiting = &staged[..count];
    for area in 0..frames as u8 {
        if !waiting.iter().any(|update| area == update.area) {
            return area;
        }
    }
    unreachable!()
}

// The frame that holds a page; none where the page is at home.
#[tactic(auto, using(crate::proofs::Places::frames_most))]
pub fn frame_of(state: State, page: u16) -> Option<usize>
    requires { readable state ≡ true }
    ensures held { held_in page 0 state.dirty ≡ held_by result }
    ensures below { IfSome result (λ frame. frame < state.frames) }
{
    let dirty = &state.dirty[..state.frames];
    for (frame, entry) in dirty.iter().enumerate() {
        if (entry.first != 0) & (page == entry.page) {
            return Some(frame);
        }
    }
    None
}
