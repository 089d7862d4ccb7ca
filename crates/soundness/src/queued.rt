// The queue of a state: its groups' sizes, and the updates that wait in staging.
ghost use Rattle.std.specs.Prelude.{◌≡◌, ◌≤◌, take, get_or};
ghost use Rattle.promises.specs.Contents.{total};
ghost use Rattle.promises.specs.Sound.{sizes_legal};
ghost use Rattle.soundness.specs.Tests.{staged_legal, waiting_legal};

use crate::numbers;
use promises::Staged;

// What one pass over the queued groups tells: whether each has 1 to 16 updates, how many updates the oldest has, 0 where no group is
// queued, and V, how many all have.
#[derive(Clone, Copy)]
pub struct Sizes {
    pub legal: bool,
    pub oldest: usize,
    pub updates: usize,
}

// One pass over the first so many groups.
pub fn sizes_of(groups: [u8; 32], queued: usize) -> Sizes
    requires { queued ≤ 32 }
    ensures { (result.legal ≡ sizes_legal (take queued groups)) × (result.oldest ≡ get_or (take queued groups) 0 0)
        × (result.updates ≡ total (take queued groups)) × (result.updates ≤ 8160) }
{
    let sizes = &groups[..queued];
    let oldest = sizes.first().map_or(0, |size| usize::from(*size));
    let mut legal = true;
    let mut updates = 0;
    for size in sizes {
        legal &= (1 <= *size) & (*size <= 16);
        updates += usize::from(*size);
    }
    Sizes {
        legal,
        oldest,
        updates,
    }
}

// Whether an update that waits is in an area below F, and its place legal.
fn update_sound(staged: Staged, pages: usize, frames: usize) -> bool
    ensures { result ≡ staged_legal pages frames staged }
{
    let page = usize::from(staged.page);
    let offset = usize::from(staged.offset);
    let length = usize::from(staged.length);
    let legal = block::legal_place(pages, page, offset, length);
    (usize::from(staged.area) < frames) & legal
}

// Whether the first so many updates are as they have to be, in distinct areas: one pass tests each and gathers its area.
pub fn staged_sound(staged: [Staged; 32], count: usize, pages: usize, frames: usize) -> bool
    requires { count ≤ 32 }
    ensures { result ≡ waiting_legal pages frames (take count staged) }
{
    let mut list = [0u16; 32];
    let mut legal = true;
    for (i, update) in staged[..count].iter().enumerate() {
        list[i] = u16::from(update.area);
        legal &= update_sound(*update, pages, frames);
    }
    let apart = numbers::all_distinct(&list[..count]);
    legal & apart
}
