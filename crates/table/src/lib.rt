// The dirty pages in their frames: a committed update put into its page's frame, and a page dropped once its clean block is in the
// log. They are kept in place: see seats. It knows home and frames as lent bytes, and nothing of the log.
#![tactic(auto)]

pub mod seats;

use promises::Dirty;

// What the contracts of seats speak of, and no code uses: the dirty pages of `count` frames, each at its frame's index. `full`: a page found no
// frame, and nothing is applied any more.
#[derive(Clone, Copy)]
pub struct Table {
    pub count: usize,
    pub full: bool,
    pub dirty: [Dirty; 32],
}
