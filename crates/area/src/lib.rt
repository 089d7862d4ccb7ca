// Parts of lent byte slices: copying and clearing them. The lowest layer; it knows no format and no size.
#![tactic(auto)]

ghost use Rattle.std.specs.Prelude.{◌≡◌, ◌+◌, ◌≤◌, length, replicate};
ghost use Rattle.area.specs.Part.{part, splice};

// Sets every byte of area to zero.
pub fn clear(area: &mut [u8])
    ensures { area.new ≡ replicate (length area.old) 0 }
{
    area.fill(0);
}

// Copies count bytes of source, from index from on, over those of destination from index to on.
pub fn copy_part(destination: &mut [u8], to: usize, source: &[u8], from: usize, count: usize)
    requires { (to + count ≤ length destination.old) × (from + count ≤ length source.now) }
    ensures { destination.new ≡ splice destination.old to count (part source.now from count) }
{
    destination[to..to + count].copy_from_slice(&source[from..from + count]);
}
