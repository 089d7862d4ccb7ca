// The dirty pages of a state: one pass over the frames' entries, and the page that a cleaning names.
ghost use Rattle.std.specs.Prelude.{◌≡◌, ◌&&◌, ◌≤◌, length, take};
ghost use Rattle.promises.specs.Sums.{smallest, first_groups};
ghost use Rattle.promises.specs.Sound.{distinct, dirty_numbers, names};
ghost use Rattle.soundness.specs.Tests.{entry_legal, entries_legal};

use crate::numbers;
use promises::{Cleaning, Dirty};

// What one pass over the frames tells: whether every entry is as it has to be, how many pages are dirty, and the oldest of a start
// and of the first groups.
#[derive(Clone, Copy)]
pub struct Survey {
    pub legal: bool,
    pub count: usize,
    pub low: u64,
}

// Whether a frame is free, or below F with a page below P and a first group below next.
fn entry_sound(entry: Dirty, frame: usize, pages: usize, frames: usize, next: u64) -> bool
    ensures { result ≡ entry_legal pages frames next frame entry }
{
    let page = usize::from(entry.page);
    (entry.first == 0) | ((frame < frames) & (page < pages) & (entry.first < next))
}

// One pass over the frames; four free ones are passed over at once. The numbers of the dirty pages go to a list that the caller lends: one
// handed back would be copied in wide pieces right after it was written number by number, which stalls store-to-load forwarding.
pub fn survey_of(
    dirty: [Dirty; 32],
    pages: usize,
    frames: usize,
    next: u64,
    own: u64,
    list: &mut [u16],
) -> Survey
    requires { length list.old ≡ 32 }
    ensures { (result.legal ≡ entries_legal pages frames next 0 dirty) × (result.count ≡ length (first_groups dirty)) × (result.count ≤ 32)
        × (result.low ≡ smallest own (first_groups dirty)) × (result.low ≤ own) × (take result.count list.new ≡ dirty_numbers dirty) }
{
    let mut count = 0;
    let mut low = own;
    let mut legal = true;
    for i in (0..32).step_by(4) {
        let one = dirty[i];
        let two = dirty[i + 1];
        let three = dirty[i + 2];
        let four = dirty[i + 3];
        if (one.first != 0) | (two.first != 0) | (three.first != 0) | (four.first != 0) {
            for j in i..i + 4 {
                let entry = dirty[j];
                if entry.first != 0 {
                    legal &= entry_sound(entry, j, pages, frames, next);
                    low = low.min(entry.first);
                    list[count] = entry.page;
                    count += 1;
                }
            }
        }
    }
    Survey { legal, count, low }
}

// Whether a cleaning names one of these pages. By any, not contains, as in numbers.rt.
fn named(cleaning: Cleaning, pages: &[u16]) -> bool
    ensures { result ≡ names cleaning pages.now }
{
    match cleaning {
        Cleaning::Idle => true,
        Cleaning::First(page) | Cleaning::Second(page) | Cleaning::Third(page) => {
            pages.iter().any(|dirty| page == *dirty)
        }
    }
}

// Whether the dirty pages are as they have to be, of whether their entries are legal and of their numbers: distinct, and one of them is
// the page that a cleaning names.
pub fn pages_sound(cleaning: Cleaning, legal: bool, pages: &[u16]) -> bool
    ensures { result ≡ legal && distinct pages.now && names cleaning pages.now }
{
    let apart = numbers::all_distinct(pages);
    let named = named(cleaning, pages);
    legal & apart & named
}
