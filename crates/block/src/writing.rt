// Building a block up from zeros.
ghost use Rattle.std.specs.Prelude.{◌≡◌, ◌≤◌, length};
ghost use Rattle.std.proofs.lemmas.List.Edits.{sets};
ghost use Rattle.block.specs.Sizes.{block_size, new_bytes_most};
ghost use Rattle.block.specs.Kind.{fields_of, length_of};
ghost use Rattle.block.specs.Layout.{middle, header, layout};

use crate::{Block, Fields, Kind, check, number};

// Where the new bytes start, and where the check does.
pub const HEADER: usize = 36;

pub const BODY: usize = 508;

// The number and the fields of a kind.
pub fn fields_of(kind: Kind) -> Fields
    ensures { result ≡ fields_of kind }
{
    match kind {
        Kind::Update {
            index,
            page,
            offset,
            length,
        } => Fields {
            kind: 1,
            index,
            page,
            offset,
            length,
        },
        Kind::Commit { updates } => Fields {
            kind: 2,
            index: updates,
            page: 0,
            offset: 0,
            length: 0,
        },
        Kind::Clean { page } => Fields {
            kind: 3,
            index: 0,
            page,
            offset: 0,
            length: 0,
        },
    }
}

// How many new bytes a block of a kind carries.
pub fn length_of(kind: Kind) -> usize
    ensures { result ≡ length_of kind }
{
    match kind {
        Kind::Update { length, .. } => length,
        Kind::Commit { .. } | Kind::Clean { .. } => 0,
    }
}

// Sets bytes 16 to 27 of 512.
fn put_middle(b: &mut [u8; 512], fields: Fields)
    ensures { b.new ≡ sets b.old 16 (middle fields) }
{
    number::put(b, 16, 1, fields.kind);
    number::put(b, 17, 1, 0);
    number::put(b, 18, 2, fields.index as u64);
    number::put(b, 20, 2, fields.page as u64);
    number::put(b, 22, 2, fields.offset as u64);
    number::put(b, 24, 2, fields.length as u64);
    number::put(b, 26, 2, 0);
}

// Sets bytes 0 to 35 of 512.
fn put_header(b: &mut [u8; 512], block: Block)
    ensures { b.new ≡ sets b.old 0 (header block) }
{
    number::put(b, 0, 8, block.sequence);
    number::put(b, 8, 8, block.keep_from);
    put_middle(b, fields_of(block.kind));
    number::put(b, 28, 8, block.ticket);
}

// Stores a block in its slot. The array is built up from zeros: header, new bytes and, once these are in the slot, their check. The check
// is taken of the slot, where a load finds its bytes in one piece; those of the array were stored just before, number by number.
pub fn store(slot: &mut [u8], block: Block, new: &[u8])
    requires { (length slot.old ≡ block_size) × (length new.now ≤ new_bytes_most) }
    ensures { slot.new ≡ layout block new.now }
{
    let mut b = [0; Block::SIZE];
    put_header(&mut b, block);
    let end = HEADER + new.len();
    b[HEADER..end].copy_from_slice(new);
    slot.copy_from_slice(&b);
    let sums = check::check_of(&slot[..BODY]);
    number::put(&mut b, 508, 2, sums.a);
    number::put(&mut b, 510, 2, sums.b);
    area::copy_part(slot, BODY, &b, BODY, 4);
}
