// Worked blocks (01, "Checked by hand"), for a log of 8 slots and a home of 4 pages. A line for each slot: the case's number, the four
// check bytes in hex, and what judging says of the slot. For case 8 the offset, the length and whether they are legal.
#![tactic(auto)]

ghost use Rattle.std.specs.Prelude.{◌≤◌, length};
ghost use Rattle.block.specs.Sizes.{new_bytes_most};

use block::{Block, Judged};
use output::Output;
use std::io;

const SLOTS: u64 = 8;

const PAGES: usize = 4;

// The line of a slot at a place.
fn show(rt: &impl Print, case: u64, slot: &[u8; 512], place: u64) -> io::Result<()> {
    let judged = match block::judge(slot, SLOTS, PAGES, place) {
        Judged::Unused => "unused",
        Judged::Damaged => "damaged",
        Judged::Valid(_) => "valid",
    };
    println!(rt;
        "{case} {:02X} {:02X} {:02X} {:02X} {judged}",
        slot[508], slot[509], slot[510], slot[511]
    )
}

// A slot that held other bytes, with a block written to it.
fn written(block: Block, new: &[u8]) -> [u8; 512]
    requires { length new.now ≤ new_bytes_most }
{
    let mut slot = [7; Block::SIZE];
    block::write(&mut slot, block, new);
    slot
}

// Case 8: whether 472 bytes at an offset of page 0 are legal.
fn show_place(rt: &impl Print, offset: usize) -> io::Result<()> {
    let length = Block::NEW_BYTES;
    let legal = if block::legal_place(PAGES, 0, offset, length) {
        "legal"
    } else {
        "not legal"
    };
    println!(rt; "8 {offset} {length} {legal}")
}

// An update of 472 bytes, zero but for bytes 100 and 357 of the block.
fn of_two(at_100: u8, at_357: u8) -> [u8; 512] {
    let mut new = [0; Block::NEW_BYTES];
    new[64] = at_100;
    new[321] = at_357;
    written(Block::update(1, 1, 1, 0, 0, 472, 0), &new)
}

// Case 13: two blocks with the same check; the one changed in place to the other, which no check finds; and changed in one
// byte, which the check finds.
fn show_same_check(rt: &impl Print) -> io::Result<()> {
    let mut slot = of_two(0, 255);
    show(rt, 13, &slot, 1)?;
    show(rt, 13, &of_two(255, 0), 1)?;
    slot[100] = 255;
    slot[357] = 0;
    show(rt, 13, &slot, 1)?;
    slot[357] = 1;
    show(rt, 13, &slot, 1)
}

// Every line, in order.
fn all_lines(rt: &impl Print) -> io::Result<()> {
    show(rt, 1, &[0; Block::SIZE], 1)?;
    show(rt, 2, &written(Block::update(1, 1, 1, 0, 0, 1, 0), b"*"), 1)?;
    show(rt, 3, &written(Block::commit(2, 1, 1, 1), b""), 2)?;
    show(rt, 4, &written(Block::clean(3, 3, 0, 1), b""), 3)?;
    show_place(rt, 552)?;
    show_place(rt, 553)?;
    let eighth = written(Block::clean(8, 8, 0, 1), b"");
    show(rt, 9, &eighth, 0)?;
    show(rt, 9, &eighth, 1)?;
    show_same_check(rt)
}

fn main() {
    let _ = all_lines(&Output);
}
