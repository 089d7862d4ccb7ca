// What Log step and Clean step share: the test of the lent lengths, and the one store of 512 bytes that a call makes.
#![tactic(auto)]

ghost use Rattle.std.specs.Prelude.{◌≡◌, ◌+◌, ◌*◌, ◌≤◌, length};
ghost use Rattle.area.specs.Part.{part, splice};
ghost use Rattle.block.specs.Sizes.{block_size, new_bytes_most};
ghost use Rattle.block.specs.Legal.{slot_of};
ghost use Rattle.block.specs.Layout.{layout};
ghost use Rattle.promises.specs.Areas.{with_slot, log_length};
ghost use Rattle.promises.specs.LogStep.{areas_fit};

use block::Block;
use promises::State;

// Whether log, home and frames of these lengths are the areas of a state whose sizes are in range.
pub fn areas_fit(state: State, log: usize, home: usize, frames: usize) -> bool
    requires { (state.slots ≤ 1024) × (state.pages ≤ 4096) × (state.frames ≤ 32) }
    ensures { result ≡ areas_fit state log home frames }
{
    (log == state.slots * Block::SIZE)
        & (home == state.pages * Block::PAGE)
        & (frames == state.frames * Block::PAGE)
}

// Where the slot of a sequence starts, in a log of so many slots.
fn place(slots: usize, sequence: u64) -> usize
    requires { (1 ≤ slots) × (slots ≤ 1024) }
    ensures start { result ≡ slot_of slots sequence * block_size }
    ensures within { result + block_size ≤ log_length slots }
{
    (sequence % slots as u64) as usize * Block::SIZE
}

// Stores a block and its new bytes in its slot of a log of so many slots.
pub fn store(log: &mut [u8], slots: usize, block: Block, new: &[u8])
    requires { (1 ≤ slots) × (slots ≤ 1024) × (length log.old ≡ log_length slots) × (length new.now ≤ new_bytes_most) }
    ensures { log.new ≡ with_slot log.old (slot_of slots block.sequence) (layout block new.now) }
{
    let at = place(slots, block.sequence);
    block::write(&mut log[at..at + Block::SIZE], block, new);
}

// Stores the 512 bytes of a block in the slot of its sequence, in a log of so many slots.
pub fn store_bytes(log: &mut [u8], slots: usize, sequence: u64, bytes: &[u8])
    requires { (1 ≤ slots) × (slots ≤ 1024) × (length log.old ≡ log_length slots) × (length bytes.now ≡ block_size) }
    ensures { log.new ≡ with_slot log.old (slot_of slots sequence) bytes.now }
{
    let at = place(slots, sequence);
    log[at..at + Block::SIZE].copy_from_slice(bytes);
}

// Stores half a page at home: the bytes of frames from index from on go to index to.
pub fn store_half(home: &mut [u8], to: usize, frames: &[u8], from: usize)
    requires { (to + block_size ≤ length home.old) × (from + block_size ≤ length frames.now) }
    ensures { home.new ≡ splice home.old to block_size (part frames.now from block_size) }
{
    home[to..to + Block::SIZE].copy_from_slice(&frames[from..from + Block::SIZE]);
}
