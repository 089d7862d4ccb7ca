// Dirty pages in a list with a fixed room, which lies in the value itself and is copied with it.
ghost use Rattle.std.specs.Prelude.{◌≡◌, [], ◌∷◌, ◌++◌, ◌+◌, ◌≤◌, ◌<◌, length};

use crate::Mark;
use std::marker::Model;

// The dirty pages. There is room for a group's pages beside those of all frames: a commit that leaves too many is seen by the count.
#[derive(Clone, Copy)]
pub struct Marks {
    count: usize,
    entries: [Mark; 48],
}

impl Model for Marks {
    ghost use Rattle.std.specs.Prelude.{◌≡◌, ◌≤◌, ◌++◌, length, take, drop};
    ghost use Rattle.std.proofs.Common.{arith, take-append-drop, length-take-le};
    ghost use Rattle.outline.specs.Lists.{MarkList};

    ghost Value = { MarkList };

    ghost view = { λ m. record { items = take m.count m.entries; spare = drop m.count m.entries } };

    ghost invariant = { λ m. (m.count ≤ 48) × (length m.entries ≡ 48) };

    ghost inverse = { λ m. record { count = length m.items; entries = m.items ++ m.spare } };

    ghost inverse_ok = { λ m h i. record {
      count = length-take-le m.count m.entries (omega (arith, h.0, h.1)) i;
      entries = take-append-drop m.count m.entries i;
    } };
}

impl Marks {
    // No dirty page.
    pub fn new() -> Marks
        ensures { result.items ≡ [] }
    {
        Marks {
            count: 0,
            entries: [Mark { page: 0, first: 0 }; 48],
        }
    }

    // How many there are.
    pub fn len(&self) -> usize
        ensures value { result ≡ length self.now.items }
        ensures fits { result ≤ 48 }
    {
        self.as_slice().len()
    }

    // One more, behind the others.
    pub fn push(&mut self, mark: Mark)
        requires { length self.old.items < 48 }
        ensures items { self.new.items ≡ self.old.items ++ mark ∷ [] }
        ensures len { length self.new.items ≡ length self.old.items + 1 }
    {
        self.entries[self.count] = mark;
        self.count += 1;
    }

    // All of them, in order.
    pub fn as_slice(&self) -> &[Mark]
        ensures value { result.now ≡ self.now.items }
        ensures fits { length result.now ≤ 48 }
    {
        &self.entries[..self.count]
    }
}
