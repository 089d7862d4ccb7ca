// Judging a slot: its first 508 bytes are summed once, and no second block is built.
ghost use Rattle.std.specs.Prelude.{◌≡◌, ◌+◌, ◌<◌, ◌≤◌, length};
ghost use Rattle.area.specs.Part.{part};
ghost use Rattle.block.specs.Sizes.{block_size, new_bytes_most};
ghost use Rattle.block.specs.Kind.{kind_of, length_of};
ghost use Rattle.block.specs.Layout.{layout};
ghost use Rattle.block.specs.Legal.{legal, legal_kind, legal_numbers};
ghost use Rattle.block.specs.Slot.{all_zero, same, fields_at, block_at, new_bytes_at, valid as is_valid};

use crate::{Block, Fields, Kind, check, number, writing};

// Sequences are below this.
const SEQUENCES: u64 = 1 << 48;

// The most updates of a group.
const GROUP: usize = 16;

// Whether all bytes are zero, for bytes that likely are not: it ends at the first other one.
pub fn zeros(bytes: &[u8]) -> bool
    ensures { result ≡ all_zero bytes.now }
{
    bytes.iter().all(|byte| *byte == 0)
}

// Whether all of a few bytes are zero, for bytes that likely are: the largest of them tells, and no branch is taken on a byte, so that the
// compiler compares sixteen at once. `zeros` would take them one by one.
fn few_blank(bytes: &[u8]) -> bool
    ensures { result ≡ all_zero bytes.now }
{
    let mut most: u8 = 0;
    for byte in bytes {
        most = most.max(*byte);
    }
    most == 0
}

// Whether the 32 bytes from a place on are zero, eight at a time.
fn blank_from(bytes: &[u8], place: usize) -> bool
    requires { (place ≤ 96) × (place + 32 ≤ length bytes.now) }
    ensures { result ≡ all_zero (part bytes.now place 32) }
{
    (number::get_long(bytes, place) == 0)
        & (number::get_long(bytes, place + 8) == 0)
        & (number::get_long(bytes, place + 16) == 0)
        & (number::get_long(bytes, place + 24) == 0)
}

// Whether 128 bytes are zero.
fn row_blank(bytes: &[u8]) -> bool
    requires { length bytes.now ≡ 128 }
    ensures { result ≡ all_zero bytes.now }
{
    blank_from(bytes, 0) & blank_from(bytes, 32) & blank_from(bytes, 64) & blank_from(bytes, 96)
}

// Whether all bytes are zero, for bytes that likely are: in rows of 128, the last of which ends with the last byte and may share bytes
// with the one before.
fn blank(bytes: &[u8]) -> bool
    ensures { result ≡ all_zero bytes.now }
{
    if bytes.len() < 128 {
        return few_blank(bytes);
    }
    let last = bytes.len() - 128;
    for i in (0..last).step_by(128) {
        if !row_blank(&bytes[i..i + 128]) {
            return false;
        }
    }
    row_blank(&bytes[last..])
}

// Bytes 16 and 18 to 25 of a slot.
fn fields_at(slot: &[u8]) -> Fields
    requires { length slot.now ≡ block_size }
    ensures { result ≡ fields_at slot.now }
{
    Fields {
        kind: u64::from(slot[16]),
        index: usize::from(number::get_pair(slot, 18)),
        page: usize::from(number::get_pair(slot, 20)),
        offset: usize::from(number::get_pair(slot, 22)),
        length: usize::from(number::get_pair(slot, 24)),
    }
}

// The kind that fields tell.
fn kind_of(fields: Fields) -> Kind
    ensures { result ≡ kind_of fields }
{
    match fields.kind {
        1 => Kind::Update {
            index: fields.index,
            page: fields.page,
            offset: fields.offset,
            length: fields.length,
        },
        2 => Kind::Commit {
            updates: fields.index,
        },
        _ => Kind::Clean { page: fields.page },
    }
}

// The block that a slot's header tells.
pub fn block_at(slot: &[u8]) -> Block
    requires { length slot.now ≡ block_size }
    ensures { result ≡ block_at slot.now }
{
    Block {
        sequence: number::get_long(slot, 0),
        keep_from: number::get_long(slot, 8),
        kind: kind_of(fields_at(slot)),
        ticket: number::get_long(slot, 28),
    }
}

// Whether sequence s, keep-from k and a ticket are legal in a log of so many slots.
fn legal_numbers(slots: u64, s: u64, k: u64, ticket: u64) -> bool
    ensures { result ≡ legal_numbers slots s k ticket }
{
    let back = s.saturating_sub(k);
    (1 <= s) & (s < SEQUENCES) & (1 <= k) & (k <= s) & (back < slots) & (ticket < s)
}

// Whether a kind's fields are legal with so many pages.
fn legal_kind(pages: usize, ticket: u64, kind: Kind) -> bool
    ensures { result ≡ legal_kind pages ticket kind }
{
    match kind {
        Kind::Update {
            index,
            page,
            offset,
            length,
        } => {
            let place = crate::legal_place(pages, page, offset, length);
            (1 <= index) & (index <= GROUP) & place
        }
        Kind::Commit { updates } => (1 <= updates) & (updates <= GROUP) & (1 <= ticket),
        Kind::Clean { page } => page < pages,
    }
}

// Whether a block's fields are legal.
fn legal_block(slots: u64, pages: usize, block: Block) -> bool
    ensures { result ≡ legal slots pages block }
{
    legal_numbers(slots, block.sequence, block.keep_from, block.ticket)
        & legal_kind(pages, block.ticket, block.kind)
}

// Whether a slot's bytes are the layout of the block that its header tells: the kind has these fields, reserved bytes and
// padding are zero, and the check is right.
fn laid_out(slot: &[u8], block: Block, count: usize) -> bool
    requires { (length slot.now ≡ block_size) × (block ≡ block_at slot.now) × (count ≡ length_of block.kind) × (count ≤ new_bytes_most) }
    ensures { result ≡ same slot.now (layout block (new_bytes_at slot.now count)) }
{
    let told = fields_at(slot) == writing::fields_of(block.kind);
    let reserved = (slot[17] == 0) & (slot[26] == 0) & (slot[27] == 0);
    let end = writing::HEADER + count;
    let sums = check::check_of(&slot[..writing::BODY]);
    let checked = (u64::from(number::get_pair(slot, 508)) == sums.a)
        & (u64::from(number::get_pair(slot, 510)) == sums.b);
    let padding = blank(&slot[end..writing::BODY]);
    told & reserved & padding & checked
}

// Whether a slot holds the block that its header tells, valid in this place.
pub fn valid(slot: &[u8], block: Block, slots: u64, pages: usize, place: u64) -> bool
    requires { (length slot.now ≡ block_size) × (block ≡ block_at slot.now) × (0 < slots) }
    ensures { result ≡ is_valid slots pages place slot.now block }
{
    legal_block(slots, pages, block)
        && block.sequence % slots == place
        && laid_out(slot, block, writing::length_of(block.kind))
}
