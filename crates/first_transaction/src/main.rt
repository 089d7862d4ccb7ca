// A first transaction: a coupon date on page 0 and its accrual on page 1 are written together. The power is cut after none, one, two and all
// of its blocks, and each time both pages are as they were, or both are changed. (A program looks at each answer; here only Read's is.)
#![tactic(auto)]

use block::Block;
use output::Output;
use promises::State;
use std::io;

// Prints the first ten bytes of a page, as the store shows it.
fn show(rt: &impl Print, state: State, home: &[u8], frames: &[u8], page: usize) -> io::Result<()> {
    let page = store::read(state, home, frames, page);
    if page.answer.is_ok() && 10 <= page.bytes.len() {
        print!(rt; " ")?;
        rt.write_all(&page.bytes[..10])?;
    }
    Ok(())
}

// Makes the transaction, cuts the power after `blocks` of its blocks, opens again and prints both pages.
fn cut_after(rt: &impl Print, blocks: u64) -> io::Result<()> {
    // A log of 8 slots and a home of 4 pages, on a device; 2 frames and their staging areas, in memory.
    let mut log = [0; 8 * Block::SIZE];
    let home = [b'-'; 4 * Block::PAGE];
    let mut frames = [0; 2 * Block::PAGE];
    let mut staging = [0; 2 * Block::NEW_BYTES];
    let _ = store::format(&mut log);
    let opened = store::open(&log, &home, &mut frames, &staging);

    // Two updates; their commit makes three blocks. Each Log step stores one.
    let begun = store::begin(opened.state, 2);
    let dated = store::describe(begun.state, &mut staging, 0, 0, b"2026-11-16");
    let accrued = store::describe(dated.state, &mut staging, 1, 0, b"1.25");
    let ended = store::end(accrued.state);
    let mut state = ended.state;
    for _ in 0..blocks {
        let logged = store::log_step(state, &mut log, &home, &mut frames, &staging);
        state = logged.state;
    }

    // The power is cut: the state is lost, and so is what frames and staging held. Log and home are left.
    frames = [255; 2 * Block::PAGE];
    staging = [255; 2 * Block::NEW_BYTES];
    let reopened = store::open(&log, &home, &mut frames, &staging);
    print!(rt; "{blocks} blocks stored:")?;
    show(rt, reopened.state, &home, &frames, 0)?;
    show(rt, reopened.state, &home, &frames, 1)?;
    println!(rt; "")
}

// Cuts the power after none, one, two and all of the blocks.
fn cut_everywhere(rt: &impl Print) -> io::Result<()> {
    for blocks in 0..=3 {
        cut_after(rt, blocks)?;
    }
    Ok(())
}

fn main() {
    let _ = cut_everywhere(&Output);
}
