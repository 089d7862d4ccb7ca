// Reads a script on standard input, drives the store's calls over areas of its own, and prints one line for each line read. What a
// line means is the crate `script`'s; here are the areas and the calls.
#![tactic(auto)]

mod desk;
mod lines;

use desk::Desk;
use output::Output;
use script::Reading;
use std::io;
use std::io::Read;

// Bytes more of the line at hand: each line that they end is run. What is read of the line after it is handed back.
fn take_bytes(
    rt: &impl Print,
    desk: &mut Desk,
    reading: Reading,
    bytes: &[u8],
) -> io::Result<Reading> {
    let mut reading = reading;
    for byte in bytes {
        if *byte == b'\n' {
            lines::run(rt, script::command_of(reading), desk)?;
            reading = Reading::Nothing;
        } else {
            reading = script::turn(reading, *byte);
        }
    }
    Ok(reading)
}

// All that there is to read. A loop has to end, and nothing says that the input does: so it counts its turns, up to a number that no run
// reaches. A read that fails brings as much as the input's end. A line that the end cuts off is no command.
fn replay<R: Read>(rt: &impl Print, input: &mut R, desk: &mut Desk) -> io::Result<()> {
    let mut reading = Reading::Nothing;
    for _ in 0..u64::MAX {
        let mut chunk = [0; 4096];
        let count = input.read(&mut chunk).unwrap_or(0);
        if count == 0 {
            break;
        }
        reading = take_bytes(rt, desk, reading, &chunk[..count])?;
    }
    match reading {
        Reading::Nothing => Ok(()),
        Reading::Partly(_) => lines::bad(rt),
        Reading::Wrong => lines::bad(rt),
    }
}

fn main(rt: HostRuntime) {
    let mut input = rt.reader();
    let mut desk = Desk::bare();
    let _ = replay(&Output, &mut input, &mut desk);
}
