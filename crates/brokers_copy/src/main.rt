// A desk and a broker's copy of it, both in memory. The desk's blocks are fed to the copy one by one, and the power of either is cut on the
// way. After each event a line shows the same two pages on both sides: the coupon date on page 0 and its accrual on page 1.
#![tactic(auto)]

use block::Block;
use output::Output;
use promises::State;
use std::io;

// Both sides' sizes: a log of 16 slots, a home of 4 pages, and 4 frames.
const LOG: usize = 16 * Block::SIZE;

const HOME: usize = 4 * Block::PAGE;

const FRAMES: usize = 4 * Block::PAGE;

const STAGING: usize = 4 * Block::NEW_BYTES;

// The desk: its log and home, on its device; its frames and their staging areas, in memory.
#[derive(Drop)]
struct Desk {
    state: State,
    log: [u8; LOG],
    home: [u8; HOME],
    frames: [u8; FRAMES],
    staging: [u8; STAGING],
}

impl Desk {
    fn open(&mut self) {
        let opened = store::open(&self.log, &self.home, &mut self.frames, &self.staging);
        self.state = opened.state;
    }

    // One transaction over both pages.
    fn write(&mut self, date: &[u8], accrual: &[u8]) {
        let begun = store::begin(self.state, 2);
        let dated = store::describe(begun.state, &mut self.staging, 0, 0, date);
        let accrued = store::describe(dated.state, &mut self.staging, 1, 0, accrual);
        self.state = store::end(accrued.state).state;
    }

    // So many Log steps, each of which stores a block.
    fn log_blocks(&mut self, blocks: u64) {
        for _ in 0..blocks {
            let logged = store::log_step(
                self.state,
                &mut self.log,
                &self.home,
                &mut self.frames,
                &self.staging,
            );
            self.state = logged.state;
        }
    }

    // So many Clean steps. The third of a page stores its clean block.
    fn clean(&mut self, steps: u64) {
        for _ in 0..steps {
            let cleaned = store::clean_step(
                self.state,
                &mut self.log,
                &mut self.home,
                &self.frames,
            );
            self.state = cleaned.state;
        }
    }

    // The power is cut: what memory held is lost. Then the desk is opened again.
    fn cut(&mut self) {
        self.frames.fill(255);
        self.staging.fill(255);
        self.open();
    }
}

// The broker's copy: its log and home, on its device; its frames, in memory.
#[derive(Drop)]
struct Broker {
    state: State,
    log: [u8; LOG],
    home: [u8; HOME],
    frames: [u8; FRAMES],
}

impl Broker {
    fn open(&mut self) {
        let opened = replica::open(&self.log, &self.home, &mut self.frames);
        self.state = opened.state;
    }

    // So many feeds, each of the block of the desk's log that the copy takes next.
    fn feed(&mut self, times: u64, desk_log: &[u8; LOG]) {
        for _ in 0..times {
            let at = (self.state.next % 16) as usize * Block::SIZE;
            let block = &desk_log[at..at + Block::SIZE];
            let fed = replica::feed(
                self.state,
                &mut self.log,
                &mut self.home,
                &mut self.frames,
                block,
            );
            self.state = fed.state;
        }
    }

    // The power is cut: what memory held is lost. Then the copy is opened again.
    fn cut(&mut self) {
        self.frames.fill(255);
        self.open();
    }
}

// Prints the first ten bytes of a page, as the store shows it.
fn show(rt: &impl Print, state: State, home: &[u8], frames: &[u8], page: usize) -> io::Result<()> {
    let page = store::read(state, home, frames, page);
    if page.answer.is_ok() && 10 <= page.bytes.len() {
        print!(rt; " ")?;
        rt.write_all(&page.bytes[..10])?;
    }
    Ok(())
}

// Prints one side's sheet: its name, how many blocks it has, and both pages.
fn sheet(rt: &impl Print, name: &str, state: State, home: &[u8], frames: &[u8]) -> io::Result<()> {
    print!(rt; "{name} ")?;
    if 0 < state.next {
        print!(rt; "{}", state.next - 1)?;
    }
    show(rt, state, home, frames, 0)?;
    show(rt, state, home, frames, 1)
}

// Prints what happened, and both sides' sheets.
fn sheets(rt: &impl Print, event: &str, desk: &Desk, broker: &Broker) -> io::Result<()> {
    sheet(rt, "desk", desk.state, &desk.home, &desk.frames)?;
    print!(rt; "   ")?;
    sheet(rt, "broker", broker.state, &broker.home, &broker.frames)?;
    println!(rt; "   {event}")
}

// What happens, one by one.
fn run(rt: &impl Print, desk: &mut Desk, broker: &mut Broker) -> io::Result<()> {
    sheets(rt, "the copy is made", desk, broker)?;

    // A transaction of two updates and their commit: three blocks of the desk's.
    desk.write(b"2026-11-16", b"1.25");
    desk.log_blocks(3);
    sheets(rt, "the desk commits", desk, broker)?;

    // The broker's power is cut once it has one block, which it keeps: its log and home are left. Then it is fed the other two.
    broker.feed(1, &desk.log);
    broker.cut();
    sheets(
        rt,
        "one block is fed, and the broker's power is cut",
        desk,
        broker,
    )?;
    broker.feed(2, &desk.log);
    sheets(rt, "the other two are fed", desk, broker)?;

    // The desk's power is cut within a transaction, of which the broker has a block: it leaves no trace, on either side.
    desk.write(b"2027-05-16", b"1.50");
    desk.log_blocks(1);
    desk.cut();
    broker.feed(1, &desk.log);
    sheets(
        rt,
        "the desk's power is cut within a transaction",
        desk,
        broker,
    )?;

    // A page comes home: three calls on either side. The broker's power is cut after two of its.
    desk.clean(3);
    broker.feed(2, &desk.log);
    broker.cut();
    broker.feed(3, &desk.log);
    sheets(rt, "a page comes home", desk, broker)?;

    // The transaction that was cut, once more, and its blocks are fed.
    desk.write(b"2027-05-16", b"1.50");
    desk.log_blocks(3);
    broker.feed(3, &desk.log);
    sheets(
        rt,
        "the next transaction, and its three blocks are fed",
        desk,
        broker,
    )
}

fn main() {
    let mut log = [0; LOG];
    let _ = store::format(&mut log);
    let mut desk = Desk {
        state: State::all_zero(),
        log,
        home: [b'-'; HOME],
        frames: [0; FRAMES],
        staging: [0; STAGING],
    };

    // The copy's log and home start as the desk's.
    let mut broker = Broker {
        state: State::all_zero(),
        log: desk.log,
        home: desk.home,
        frames: [0; FRAMES],
    };
    desk.open();
    broker.open();
    let _ = run(&Output, &mut desk, &mut broker);
}
