// The log block: its layout, its check, writing it to a slot and judging a slot. Layers above know the format only through
// the contracts here and the laws of proofs/ about the definitions that they cite.
//
// A block is 512 bytes. Numbers are unsigned, least byte first.
//
//    at  bytes  field
//     0    8    sequence, 1 to 2^48 - 1; block s stands in slot s modulo N
//     8    8    keep-from: the oldest block that an opening still needs, 1 to the sequence, fewer than N back
//    16    1    kind: 1 update, 2 commit, 3 clean
//    17    1    0
//    18    2    index: an update's place in its group, 1 to 16; a commit's count of updates, 1 to 16; a clean's 0
//    20    2    page, below P (commit: 0)
//    22    2    offset in the page (update only, else 0)
//    24    2    length of the new bytes, 1 to 472, that end within the page (update only, else 0)
//    26    2    0
//    28    8    ticket: the last committed one, below the sequence; a commit carries its own, at least 1
//    36  472    new bytes, 0 behind them
//   508    2    A: the sum of bytes 0 to 507, modulo 65,535
//   510    2    B: the sum of (508 - i) times byte i, modulo 65,535
//
// A slot is unused if all its bytes are zero, valid if every rule of this table holds and it is the slot of its sequence, else damaged.
// docs/FORMAT.md has what the blocks of a log mean together.
#![tactic(auto)]

pub mod check;
mod judging;
mod number;
mod writing;

ghost use Rattle.std.specs.Prelude.{◌≡◌, ◌<◌, ◌≤◌, length};
ghost use Rattle.block.specs.Sizes.{block_size, new_bytes_most, page_size};
ghost use Rattle.block.specs.Layout.{layout};
ghost use Rattle.block.specs.Kind.{update_block, commit_block, clean_block};
ghost use Rattle.block.specs.Legal.{legal_place};
ghost use Rattle.block.specs.Slot.{judged, block_at, new_bytes_at};

// What a block does, with the fields that only this kind has.
#[derive(Clone, Copy)]
pub enum Kind {
    // new bytes for a page: the update's place in its group, the page, where in it, how many bytes
    Update {
        index: usize,
        page: usize,
        offset: usize,
        length: usize,
    },
    // the group of so many updates takes effect
    Commit {
        updates: usize,
    },
    // the page's committed bytes are at home
    Clean {
        page: usize,
    },
}

// A block, but for its new bytes and its check.
#[derive(Clone, Copy)]
pub struct Block {
    pub sequence: u64,
    pub keep_from: u64,
    pub kind: Kind,
    pub ticket: u64,
}

// Bytes 16 to 25 of a block: the kind's number, and the fields with 0 where the kind has none.
#[derive(Clone, Copy, PartialEq, Eq)]
pub struct Fields {
    pub kind: u64,
    pub index: usize,
    pub page: usize,
    pub offset: usize,
    pub length: usize,
}

// What a slot holds.
#[derive(Clone, Copy)]
pub enum Judged {
    Unused,
    Damaged,
    Valid(Block),
}

impl Block {
    // The bytes of a block, and of a slot.
    pub const SIZE: usize = 512;

    // The most new bytes that an update carries.
    pub const NEW_BYTES: usize = 472;

    // The bytes of a page.
    pub const PAGE: usize = 1024;

    // The update of length bytes at offset of a page that stands at place index of its group.
    pub fn update(
        sequence: u64,
        keep_from: u64,
        index: usize,
        page: usize,
        offset: usize,
        length: usize,
        ticket: u64,
    ) -> Block
        ensures { result ≡ update_block sequence keep_from index page offset length ticket }
    {
        Block {
            sequence,
            keep_from,
            kind: Kind::Update {
                index,
                page,
                offset,
                length,
            },
            ticket,
        }
    }

    // The commit of a group of so many updates.
    pub fn commit(sequence: u64, keep_from: u64, updates: usize, ticket: u64) -> Block
        ensures { result ≡ commit_block sequence keep_from updates ticket }
    {
        Block {
            sequence,
            keep_from,
            kind: Kind::Commit { updates },
            ticket,
        }
    }

    // The clean block of a page.
    pub fn clean(sequence: u64, keep_from: u64, page: usize, ticket: u64) -> Block
        ensures { result ≡ clean_block sequence keep_from page ticket }
    {
        Block {
            sequence,
            keep_from,
            kind: Kind::Clean { page },
            ticket,
        }
    }
}

// The sizes are those of the definitions.
pub fn sizes() -> bool
    ensures { (Block.SIZE ≡ block_size) × (Block.NEW_BYTES ≡ new_bytes_most) × (Block.PAGE ≡ page_size) }
{
    true
}

// Stores a block and its new bytes in its slot, which is all that is lent.
pub fn write(slot: &mut [u8], block: Block, new: &[u8])
    requires { (length slot.old ≡ block_size) × (length new.now ≤ new_bytes_most) }
    ensures { slot.new ≡ layout block new.now }
{
    writing::store(slot, block, new);
}

// What slot number place of a log of so many slots holds, for a home of so many pages.
pub fn judge(slot: &[u8], slots: u64, pages: usize, place: u64) -> Judged
    requires { (length slot.now ≡ block_size) × (0 < slots) }
    ensures { result ≡ judged slots pages place slot.now }
{
    if judging::zeros(slot) {
        return Judged::Unused;
    }
    let block = judging::block_at(slot);
    if judging::valid(slot, block, slots, pages, place) {
        return Judged::Valid(block);
    }
    Judged::Damaged
}

// The block that a slot's header tells, without judging the slot.
pub fn header(slot: &[u8]) -> Block
    requires { length slot.now ≡ block_size }
    ensures { result ≡ block_at slot.now }
{
    judging::block_at(slot)
}

// The new bytes of a slot whose block carries so many: a part of the slot.
pub fn new_bytes(slot: &[u8], count: usize) -> &[u8]
    requires { (length slot.now ≡ block_size) × (count ≤ new_bytes_most) }
    ensures { result.now ≡ new_bytes_at slot.now count }
{
    let end = writing::HEADER + count;
    &slot[writing::HEADER..end]
}

// Whether the layout allows an update of length bytes at offset of a page, with so many pages.
pub fn legal_place(pages: usize, page: usize, offset: usize, length: usize) -> bool
    ensures { result ≡ legal_place pages page offset length }
{
    let room = Block::PAGE.saturating_sub(offset);
    (page < pages) & (1 <= length) & (length <= Block::NEW_BYTES) & (length <= room)
}
