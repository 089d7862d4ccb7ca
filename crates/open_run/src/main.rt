// Open on logs made by hand: worked cases 5, 6, 7 and 12, each refusal with its place, damaged ends, and a log that wraps. N is
// 8, P 4, F 2 unless the line says otherwise; home's bytes are 5, and frames hold 9 before each opening. One line for each.
#![tactic(auto)]

ghost use Rattle.std.specs.Prelude.{◌≡◌, ◌≤◌, ◌<◌, length};

use block::Block;
use output::Output;
use promises::{Outcome, State, Stop};
use std::io;

// Writes next, the count of dirty pages, the page in the first frame and its first byte.
fn show_state(rt: &impl Print, state: State, byte: u8) -> io::Result<()> {
    let count = state.dirty.iter().filter(|entry| entry.first != 0).count();
    print!(rt; " next {} dirty {count}", state.next)?;
    if count != 0 {
        print!(rt; " page {} byte {byte}", state.dirty[0].page)?;
    }
    Ok(())
}

// Writes the answer; after a refusal, what the first byte of the frames is.
fn show(rt: &impl Print, outcome: Outcome<u64, Stop>, byte: u8) -> io::Result<()> {
    match outcome.answer {
        Ok(ticket) => {
            print!(rt; "settled {ticket}")?;
            show_state(rt, outcome.state, byte)?;
        }
        Err(stop) => {
            let number = stop.refusal.number();
            print!(rt; "refused {number} at {} frames {byte}", stop.place)?;
        }
    }
    println!(rt; "")
}

// Opens a log with so many frames, and shows what comes of it.
fn run(rt: &impl Print, label: &str, log: &[u8], count: usize) -> io::Result<()>
    requires { count ≤ 2 }
{
    let home = [5; 4096];
    let mut frames = [9; 2048];
    let staging = [3; 944];
    let end = count * Block::PAGE;
    let staging_end = count * Block::NEW_BYTES;
    let outcome = opening::open(log, &home, &mut frames[..end], &staging[..staging_end]);
    print!(rt; "{label}: ")?;
    show(rt, outcome, frames[0])
}

// Writes a block and its new bytes into a slot of eight.
fn write_into(log: &mut [u8], slot: u64, block: Block, bytes: &[u8])
    requires { (length log.old ≡ 4096) × (slot < 8) × (length bytes.now ≤ 472) }
{
    let at = slot as usize * Block::SIZE;
    block::write(&mut log[at..at + Block::SIZE], block, bytes);
}

// Stores a block and its new bytes in its own slot.
fn store(log: &mut [u8], block: Block, bytes: &[u8])
    requires { (length log.old ≡ 4096) × (length bytes.now ≤ 472) }
{
    write_into(log, block.sequence % 8, block, bytes);
}

// Blocks 1 and 2: byte 42 for page 0, and its commit.
fn one_group(log: &mut [u8])
    requires { length log.old ≡ 4096 }
{
    store(log, Block::update(1, 1, 1, 0, 0, 1, 0), b"*");
    store(log, Block::commit(2, 1, 1, 1), b"");
}

// Blocks 3 and 4: a byte for page 1, and its commit.
fn second_group(log: &mut [u8])
    requires { length log.old ≡ 4096 }
{
    store(log, Block::update(3, 1, 1, 1, 0, 1, 1), b"+");
    store(log, Block::commit(4, 1, 1, 2), b"");
}

// Blocks 3 to 8: half groups of one update each, after so many commits.
fn half_groups(log: &mut [u8], ticket: u64)
    requires { length log.old ≡ 4096 }
{
    for sequence in 3..=8 {
        store(log, Block::update(sequence, 1, 1, 0, 0, 1, ticket), b"-");
    }
}

// Worked cases 6, 5 and 7.
fn small_logs(rt: &impl Print) -> io::Result<()> {
    let mut log = [0; 4096];
    run(rt, "fresh", &log, 2)?;
    store(&mut log, Block::update(1, 1, 1, 0, 0, 1, 0), b"*");
    run(rt, "case 6", &log, 2)?;
    one_group(&mut log);
    run(rt, "case 5", &log, 2)?;
    store(&mut log, Block::clean(3, 3, 0, 1), b"");
    run(rt, "case 7", &log, 2)?;
    Ok(())
}

// Worked case 12, and refusals 1 and 7.
fn damaged_logs(rt: &impl Print) -> io::Result<()> {
    let mut log = [0; 4096];
    one_group(&mut log);
    second_group(&mut log);
    run(rt, "two pages, two frames", &log, 2)?;
    run(rt, "case 12, one frame", &log, 1)?;
    run(rt, "no frame", &log, 0)?;
    log[1100] = 1;
    log[1600] = 1;
    run(rt, "blocks 2 and 3 damaged", &log, 2)?;
    let mut junk = [0; 4096];
    junk[77] = 1;
    run(rt, "no valid slot, one damaged", &junk, 2)?;
    Ok(())
}

// A damaged end: the slot after the newest block, with an older block or without; the newest block itself; and a slot further on, which
// is no end.
fn damaged_ends(rt: &impl Print) -> io::Result<()> {
    let mut log = [0; 4096];
    one_group(&mut log);
    log[1636] = 1;
    run(rt, "slot 3 after block 2 damaged", &log, 2)?;
    log[612] = 1;
    run(rt, "and block 1 too", &log, 2)?;
    let mut newest = [0; 4096];
    one_group(&mut newest);
    newest[1124] = 1;
    run(rt, "block 2, the newest, damaged", &newest, 2)?;
    let mut further = [0; 4096];
    one_group(&mut further);
    further[2148] = 1;
    run(rt, "slot 4 after block 2 damaged", &further, 2)?;
    Ok(())
}

// Block 1 in slot 3, where it is damaged; and the last block that there may be, with a damaged slot after it and with an older block there.
fn other_ends(rt: &impl Print) -> io::Result<()> {
    let mut log = [0; 4096];
    one_group(&mut log);
    write_into(&mut log, 3, Block::update(1, 1, 1, 0, 0, 1, 0), b"*");
    run(rt, "block 1 in slot 3 too", &log, 2)?;
    let mut last = [0; 4096];
    store(
        &mut last,
        Block::clean(281474976710655, 281474976710655, 0, 1),
        b"",
    );
    last[100] = 1;
    run(rt, "slot 0 after block 2^48 - 1 damaged", &last, 2)?;
    let mut older = [0; 4096];
    store(
        &mut older,
        Block::clean(281474976710655, 281474976710655, 0, 1),
        b"",
    );
    store(
        &mut older,
        Block::clean(281474976710648, 281474976710648, 0, 1),
        b"",
    );
    run(rt, "block 2^48 - 8 in slot 0", &older, 2)?;
    Ok(())
}

// Blocks 1 to 8, half groups of one update each: they fill all slots, and the slot after the newest holds block 1.
fn full_log(rt: &impl Print) -> io::Result<()> {
    let mut log = [0; 4096];
    store(&mut log, Block::update(1, 1, 1, 0, 0, 1, 0), b"*");
    store(&mut log, Block::update(2, 1, 1, 0, 0, 1, 0), b"*");
    half_groups(&mut log, 0);
    run(rt, "blocks 1 to 8 in 8 slots", &log, 2)?;
    Ok(())
}

// Refusal 8: a wrong ticket, a commit that does not close its group, and H + D above N at the end.
fn disordered_logs(rt: &impl Print) -> io::Result<()> {
    let mut log = [0; 4096];
    one_group(&mut log);
    second_group(&mut log);
    store(&mut log, Block::update(3, 1, 1, 1, 0, 1, 0), b"+");
    run(rt, "ticket 0 at block 3, one frame", &log, 1)?;
    let mut open = [0; 4096];
    store(&mut open, Block::update(1, 1, 1, 0, 0, 1, 0), b"*");
    store(&mut open, Block::commit(2, 1, 2, 1), b"");
    run(rt, "commit of two updates after one", &open, 2)?;
    let mut long = [0; 4096];
    one_group(&mut long);
    half_groups(&mut long, 1);
    run(rt, "H 8 and D 1 of 8 slots", &long, 2)?;
    Ok(())
}

// A half group is void; and a log that wraps: keep-from in slot 7, the newest block in slot 2.
fn wrapped_logs(rt: &impl Print) -> io::Result<()> {
    let mut log = [0; 4096];
    store(&mut log, Block::update(1, 1, 1, 0, 0, 1, 0), b"*");
    store(&mut log, Block::update(2, 1, 1, 3, 0, 1, 0), b"+");
    store(&mut log, Block::commit(3, 1, 1, 1), b"");
    run(rt, "a half group of page 0, then page 3", &log, 2)?;
    let mut wrapped = [0; 4096];
    store(&mut wrapped, Block::update(7, 7, 1, 1, 0, 1, 2), b"!");
    store(&mut wrapped, Block::commit(8, 7, 1, 3), b"");
    store(&mut wrapped, Block::update(9, 7, 1, 2, 0, 1, 3), b"?");
    store(&mut wrapped, Block::commit(10, 7, 1, 4), b"");
    run(rt, "wrapped", &wrapped, 2)?;
    Ok(())
}

// Every line, in order.
fn all_lines(rt: &impl Print) -> io::Result<()> {
    small_logs(rt)?;
    damaged_logs(rt)?;
    damaged_ends(rt)?;
    other_ends(rt)?;
    full_log(rt)?;
    disordered_logs(rt)?;
    wrapped_logs(rt)
}

fn main() {
    let _ = all_lines(&Output);
}
