// Running one line: the call that it asks for, over what is lent, and the line that answers.
use crate::desk::{Desk, Lengths, front, front_mut};
use promises::{Logged, Refusal};
use script::Command;
use std::io;

// The line that answers a bad one.
pub fn bad(rt: &impl Print) -> io::Result<()> {
    println!(rt; "bad")
}

// The line of a refusal.
fn refused(rt: &impl Print, refusal: Refusal) -> io::Result<()> {
    println!(rt; "refused {}", refusal.number())
}

// The line of Format, Begin, Describe or Clean step, which say differently that they are done.
fn answered(rt: &impl Print, answer: Result<(), Refusal>, done: &str) -> io::Result<()> {
    match answer {
        Ok(()) => println!(rt; "{done}"),
        Err(refusal) => refused(rt, refusal),
    }
}

fn format(rt: &impl Print, desk: &mut Desk) -> io::Result<()> {
    let answer = store::format(front_mut(&mut desk.log, desk.lent.log));
    answered(rt, answer, "ok")
}

fn begin(rt: &impl Print, desk: &mut Desk, u: u64) -> io::Result<()> {
    let outcome = store::begin(desk.state, u as usize);
    desk.state = outcome.state;
    answered(rt, outcome.answer, "ok")
}

// Describe of so many bytes that the seed gives.
fn describe(
    rt: &impl Print,
    desk: &mut Desk,
    page: u64,
    offset: u64,
    length: u64,
    seed: u64,
) -> io::Result<()> {
    let mut bytes = [0; 512];
    script::describe_bytes(&mut bytes, seed);
    let outcome = store::describe(
        desk.state,
        front_mut(&mut desk.staging, desk.lent.staging),
        page as usize,
        offset as usize,
        front(&bytes, length as usize),
    );
    desk.state = outcome.state;
    answered(rt, outcome.answer, "ok")
}

fn open(rt: &impl Print, desk: &mut Desk) -> io::Result<()> {
    let outcome = store::open(
        front(&desk.log, desk.lent.log),
        front(&desk.home, desk.lent.home),
        front_mut(&mut desk.frames, desk.lent.frames),
        front(&desk.staging, desk.lent.staging),
    );
    desk.state = outcome.state;
    match outcome.answer {
        Ok(ticket) => println!(rt; "opened {ticket} next {}", desk.state.next),
        Err(stop) => println!(rt; "refused {} place {}", stop.refusal.number(), stop.place),
    }
}

fn end(rt: &impl Print, desk: &mut Desk) -> io::Result<()> {
    let outcome = store::end(desk.state);
    desk.state = outcome.state;
    match outcome.answer {
        Ok(ticket) => println!(rt; "ticket {ticket}"),
        Err(refusal) => refused(rt, refusal),
    }
}

fn log_step(rt: &impl Print, desk: &mut Desk) -> io::Result<()> {
    let outcome = store::log_step(
        desk.state,
        front_mut(&mut desk.log, desk.lent.log),
        front(&desk.home, desk.lent.home),
        front_mut(&mut desk.frames, desk.lent.frames),
        front(&desk.staging, desk.lent.staging),
    );
    desk.state = outcome.state;
    match outcome.answer {
        Ok(Logged::Stored) => println!(rt; "stored"),
        Ok(Logged::Settled(ticket)) => println!(rt; "settled {ticket}"),
        Err(refusal) => refused(rt, refusal),
    }
}

fn clean_step(rt: &impl Print, desk: &mut Desk) -> io::Result<()> {
    let outcome = store::clean_step(
        desk.state,
        front_mut(&mut desk.log, desk.lent.log),
        front_mut(&mut desk.home, desk.lent.home),
        front(&desk.frames, desk.lent.frames),
    );
    desk.state = outcome.state;
    answered(rt, outcome.answer, "stored")
}

// Read: the digest of the page.
fn read(rt: &impl Print, desk: &Desk, page: u64) -> io::Result<()> {
    let page = store::read(
        desk.state,
        front(&desk.home, desk.lent.home),
        front(&desk.frames, desk.lent.frames),
        page as usize,
    );
    match page.answer {
        Ok(()) => println!(rt; "page {}", script::digest(page.bytes)),
        Err(refusal) => refused(rt, refusal),
    }
}

fn settled(rt: &impl Print, desk: &Desk, ticket: u64) -> io::Result<()> {
    match store::settled(desk.state, ticket) {
        Ok(true) => println!(rt; "yes"),
        Ok(false) => println!(rt; "no"),
        Err(refusal) => refused(rt, refusal),
    }
}

// A byte of the log becomes another, if there is such a byte.
fn poke(rt: &impl Print, desk: &mut Desk, place: u64, value: u64) -> io::Result<()> {
    let log = front_mut(&mut desk.log, desk.whole.log);
    let place = place as usize;
    if log.len() <= place {
        return bad(rt);
    }
    log[place] = (value % 256) as u8;
    println!(rt; "poked")
}

// The digests of the whole log and of the whole home.
fn digests(rt: &impl Print, desk: &Desk) -> io::Result<()> {
    let log = script::digest(front(&desk.log, desk.whole.log));
    let home = script::digest(front(&desk.home, desk.whole.home));
    println!(rt; "log {log} home {home}")
}

// Runs a line's command and prints its line. Before the areas are asked for, a line that does not ask for them is bad.
pub fn run(rt: &impl Print, command: Option<Command>, desk: &mut Desk) -> io::Result<()> {
    let ready = desk.ready;
    let Some(command) = command.filter(|command| ready || matches!(command, Command::Areas { .. }))
    else {
        return bad(rt);
    };
    match command {
        Command::Areas {
            slots,
            pages,
            frames,
        } => {
            desk.make_areas(slots as usize, pages as usize, frames as usize);
            println!(rt; "areas")
        }
        Command::Format => format(rt, desk),
        Command::Begin(u) => begin(rt, desk, u),
        Command::Describe {
            page,
            offset,
            length,
            seed,
        } => describe(rt, desk, page, offset, length, seed),
        Command::Open => open(rt, desk),
        Command::End => end(rt, desk),
        Command::LogStep => log_step(rt, desk),
        Command::CleanStep => clean_step(rt, desk),
        Command::Read(page) => read(rt, desk, page),
        Command::Settled(ticket) => settled(rt, desk, ticket),
        Command::Cut => {
            desk.cut();
            println!(rt; "cut")
        }
        Command::Lend {
            log,
            home,
            frames,
            staging,
        } => {
            desk.lend(Lengths {
                log: log as usize,
                home: home as usize,
                frames: frames as usize,
                staging: staging as usize,
            });
            println!(rt; "lent")
        }
        Command::Poke { place, value } => poke(rt, desk, place, value),
        Command::Next(sequence) => {
            desk.state.next = sequence;
            println!(rt; "next")
        }
        Command::Digests => digests(rt, desk),
    }
}
