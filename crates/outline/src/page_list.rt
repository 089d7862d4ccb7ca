// A group's pages in a list with a fixed room, which lies in the value itself and is copied with it.
ghost use Rattle.std.specs.Prelude.{◌≡◌, [], ◌∷◌, ◌++◌, ◌+◌, ◌≤◌, ◌<◌, length};
ghost use Rattle.block.specs.Sizes.{group_most};

use crate::GROUP;
use std::marker::Model;

// The pages of a group's updates.
#[derive(Clone, Copy)]
pub struct Pages {
    count: usize,
    numbers: [usize; GROUP],
}

impl Model for Pages {
    ghost use Rattle.std.specs.Prelude.{◌≡◌, ◌≤◌, ◌++◌, length, take, drop};
    ghost use Rattle.std.proofs.Common.{arith, take-append-drop, length-take-le};
    ghost use Rattle.outline.specs.Lists.{PageList};

    ghost Value = { PageList };

    ghost view = { λ p. record { items = take p.count p.numbers; spare = drop p.count p.numbers } };

    ghost invariant = { λ p. (p.count ≤ 16) × (length p.numbers ≡ 16) };

    ghost inverse = { λ p. record { count = length p.items; numbers = p.items ++ p.spare } };

    ghost inverse_ok = { λ p h i. record {
      count = length-take-le p.count p.numbers (omega (arith, h.0, h.1)) i;
      numbers = take-append-drop p.count p.numbers i;
    } };
}

impl Pages {
    // No page.
    pub fn new() -> Pages
        ensures { result.items ≡ [] }
    {
        Pages {
            count: 0,
            numbers: [0; GROUP],
        }
    }

    // How many there are.
    pub fn len(&self) -> usize
        ensures value { result ≡ length self.now.items }
        ensures fits { result ≤ group_most }
    {
        self.as_slice().len()
    }

    // One more, behind the others.
    pub fn push(&mut self, page: usize)
        requires { length self.old.items < group_most }
        ensures items { self.new.items ≡ self.old.items ++ page ∷ [] }
        ensures len { length self.new.items ≡ length self.old.items + 1 }
    {
        self.numbers[self.count] = page;
        self.count += 1;
    }

    // All of them, in order.
    pub fn as_slice(&self) -> &[usize]
        ensures value { result.now ≡ self.now.items }
        ensures fits { length result.now ≤ group_most }
    {
        &self.numbers[..self.count]
    }
}
