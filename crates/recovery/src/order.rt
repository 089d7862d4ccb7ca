// Whether a block is in order, over plain numbers: for a walk with so many updates in its half group and this last committed ticket. Any
// other block is refused with 8. Every walk over a log asks here.
ghost use Rattle.std.specs.Prelude.{◌≡◌, ℕ, ◌<◌, length};
ghost use Rattle.block.specs.Sizes.{sequence_end};
ghost use Rattle.promises.specs.Updates.{Update};
ghost use Rattle.promises.specs.Blocks.{update, commit, clean};
ghost use Rattle.promises.specs.Walk.{Walk, in_order};

// An update's index is 1 or the next of the half group, and its ticket the last.
pub fn update_fits(index: usize, ticket: u64, count: usize, walked: u64) -> bool
    requires { count < sequence_end }
    ensures { (walk : Walk) (change : Update) → count ≡ length walk.group → walked ≡ walk.ticket → result ≡ in_order (update index change) ticket walk }
{
    ((index == 1) | ((0 < count) & (index == count + 1))) & (ticket == walked)
}

// A commit closes its group, and its ticket is the next.
pub fn commit_fits(updates: usize, ticket: u64, count: usize, walked: u64) -> bool
    requires { walked < sequence_end }
    ensures { (walk : Walk) → count ≡ length walk.group → walked ≡ walk.ticket → result ≡ in_order (commit updates) ticket walk }
{
    (0 < count) & (updates == count) & (ticket == walked + 1)
}

// A clean's ticket is the last.
pub fn clean_fits(ticket: u64, walked: u64) -> bool
    ensures { (walk : Walk) (page : ℕ) → walked ≡ walk.ticket → result ≡ in_order (clean page) ticket walk }
{
    ticket == walked
}
