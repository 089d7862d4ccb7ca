// Logs made in memory block by block, and the lines of each.
#![tactic(auto)]

ghost use Rattle.std.specs.Prelude.{◌≡◌, ◌+◌, ◌≤◌, length};
ghost use Rattle.block.specs.Sizes.{block_size, new_bytes_most, group_most};

use block::Block;
use output::Output;
use std::io;

// Stores a block in its slot of a log.
fn store(log: &mut [u8], block: Block, new: &[u8])
    requires { (block_size ≤ length log.old) × (length new.now ≤ new_bytes_most) }
    ensures { length log.new ≡ length log.old }
{
    let slots = (log.len() / Block::SIZE) as u64;
    let at = (block.sequence % slots) as usize * Block::SIZE;
    block::write(&mut log[at..at + Block::SIZE], block, new);
}

// Stores an update of one byte.
fn update(log: &mut [u8], sequence: u64, keep: u64, index: usize, page: usize, ticket: u64)
    requires { block_size ≤ length log.old }
    ensures { length log.new ≡ length log.old }
{
    store(
        log,
        Block::update(sequence, keep, index, page, 7, 1, ticket),
        b"*",
    );
}

// Stores a commit.
fn commit(log: &mut [u8], sequence: u64, keep: u64, updates: usize, ticket: u64)
    requires { block_size ≤ length log.old }
    ensures { length log.new ≡ length log.old }
{
    store(log, Block::commit(sequence, keep, updates, ticket), b"");
}

// Stores a clean.
fn clean(log: &mut [u8], sequence: u64, keep: u64, page: usize, ticket: u64)
    requires { block_size ≤ length log.old }
    ensures { length log.new ≡ length log.old }
{
    store(log, Block::clean(sequence, keep, page, ticket), b"");
}

// Stores the group of this ticket: an update of each of so many pages, from a page on, and its commit.
fn group(log: &mut [u8], sequence: u64, page: usize, updates: usize, ticket: u64)
    requires { (block_size ≤ length log.old) × (updates ≤ group_most) × (page ≤ 4096) × (sequence ≤ 4096) × (ticket ≤ 4096) }
    ensures { length log.new ≡ length log.old }
{
    for i in 0..updates {
        update(log, sequence + i as u64, 1, i + 1, page + i, ticket);
    }
    commit(log, sequence + updates as u64, 1, updates, ticket + 1);
}

// Writes the text of a log to standard output.
fn show(rt: &impl Print, log: &[u8]) -> io::Result<()> {
    let mut out = [0; listing::TEXT];
    let end = listing::text(log, &mut out);
    rt.write_all(&out[..end])
}

// A log without a block; then a half group, which is void; then it is committed; then its page is clean.
fn small(rt: &impl Print) -> io::Result<()> {
    let mut log = [0; 4096];
    show(rt, &log)?;
    update(&mut log, 1, 1, 1, 0, 0);
    show(rt, &log)?;
    commit(&mut log, 2, 1, 1, 1);
    show(rt, &log)?;
    clean(&mut log, 3, 3, 0, 1);
    show(rt, &log)?;
    Ok(())
}

// A log of 8 slots that has wrapped: blocks 7 to 10 stand in slots 7, 0, 1 and 2, an old block in slot 3.
fn wrapped(rt: &impl Print) -> io::Result<()> {
    let mut log = [0; 4096];
    clean(&mut log, 3, 3, 9, 1);
    update(&mut log, 7, 7, 1, 4095, 3);
    commit(&mut log, 8, 7, 1, 4);
    update(&mut log, 9, 7, 1, 2, 4);
    commit(&mut log, 10, 7, 1, 5);
    show(rt, &log)?;
    Ok(())
}

// Logs that are damaged: no valid slot but a damaged one; blocks 2 and 3 missing; and logs of a wrong length.
fn damaged(rt: &impl Print) -> io::Result<()> {
    let mut log = [0; 4096];
    log[100] = 1;
    show(rt, &log)?;
    update(&mut log, 1, 1, 1, 0, 0);
    commit(&mut log, 4, 1, 1, 1);
    show(rt, &log)?;
    let few = [0; 3584];
    show(rt, &few)?;
    let torn = [0; 4095];
    show(rt, &torn)?;
    Ok(())
}

// Damaged ends: the slot after the newest block; a slot further on, which is no end; the newest block; an older one as well.
fn damaged_ends(rt: &impl Print) -> io::Result<()> {
    let mut log = [0; 4096];
    group(&mut log, 1, 0, 1, 0);
    log[1636] = 1;
    show(rt, &log)?;
    let mut further = [0; 4096];
    group(&mut further, 1, 0, 1, 0);
    further[2148] = 1;
    show(rt, &further)?;
    further[1124] = 1;
    show(rt, &further)?;
    log[612] = 1;
    show(rt, &log)?;
    Ok(())
}

// The last block that there may be, in slot 7: a damaged slot after it, and an older block there.
fn last_end(rt: &impl Print) -> io::Result<()> {
    let mut log = [0; 4096];
    clean(&mut log, 281474976710655, 281474976710655, 0, 1);
    log[100] = 1;
    show(rt, &log)?;
    let mut older = [0; 4096];
    clean(&mut older, 281474976710655, 281474976710655, 0, 1);
    clean(&mut older, 281474976710648, 281474976710648, 0, 1);
    show(rt, &older)?;
    Ok(())
}

// Logs out of order: an update whose index is neither 1 nor the next, a commit that does not close its group, a wrong ticket.
fn disordered(rt: &impl Print) -> io::Result<()> {
    let mut log = [0; 4096];
    update(&mut log, 1, 1, 1, 0, 0);
    update(&mut log, 2, 1, 3, 1, 0);
    show(rt, &log)?;
    commit(&mut log, 2, 1, 2, 1);
    show(rt, &log)?;
    commit(&mut log, 2, 1, 1, 1);
    clean(&mut log, 3, 1, 0, 2);
    show(rt, &log)?;
    Ok(())
}

// What cleaning needs is not within 8 slots: four dirty pages in eight blocks.
fn crowded(rt: &impl Print) -> io::Result<()> {
    let mut log = [0; 4096];
    group(&mut log, 1, 0, 1, 0);
    group(&mut log, 3, 1, 1, 1);
    group(&mut log, 5, 2, 1, 2);
    group(&mut log, 7, 3, 1, 3);
    show(rt, &log)?;
    Ok(())
}

// The third group leaves 33 pages dirty; before it there are 32, which 128 slots allow.
fn many(rt: &impl Print) -> io::Result<()> {
    let mut log = [0; 65536];
    group(&mut log, 1, 0, 16, 0);
    group(&mut log, 18, 16, 16, 1);
    show(rt, &log)?;
    group(&mut log, 35, 32, 1, 2);
    show(rt, &log)?;
    Ok(())
}

// Every line, in order.
fn all_lines(rt: &impl Print) -> io::Result<()> {
    small(rt)?;
    wrapped(rt)?;
    damaged(rt)?;
    damaged_ends(rt)?;
    last_end(rt)?;
    disordered(rt)?;
    crowded(rt)?;
    many(rt)
}

fn main() {
    let _ = all_lines(&Output);
}
