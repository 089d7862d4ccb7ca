// Shows the log in file log.img of the working folder: the line of each of its blocks, or why it is refused.
#![tactic(auto)]

ghost use Rattle.io.specs.Counts.{IsPrefixLen};

use block::Block;
use std::fs::File;
use std::io::Read;
use std::rt::Files;

// The bytes of the largest log that is shown.
const MOST: usize = listing::SLOTS * Block::SIZE;

// Reads until bytes are full or the file ends, and answers how many there are. A read that fails counts as the end.
fn read_full<R: Read>(file: &mut R, bytes: &mut [u8]) -> usize
    ensures { IsPrefixLen result bytes.new }
{
    let mut done = 0;
    // A while: only after a read is it known how far it came.
    while done < bytes.len() {
        let count = file.read(&mut bytes[done..]).unwrap_or(0);
        if count == 0 {
            break;
        }
        done += count;
    }
    done
}

// Reads the log and answers its length. A file that is missing, or too long for the lent bytes, is read as an empty log: refusal 1.
fn read_log(files: &impl Files, log: &mut [u8]) -> usize
    ensures { IsPrefixLen result log.new }
{
    let Ok(mut file) = File::open(files, "log.img") else {
        return 0;
    };
    let mut more = [0; 1];
    let size = read_full(&mut file, log);
    let longer = read_full(&mut file, &mut more);
    if 0 < longer {
        return 0;
    }
    size
}

fn main(rt: HostRuntime) {
    let mut log = [0; MOST];
    let mut out = [0; listing::TEXT];
    let size = read_log(&rt, &mut log);
    let end = listing::text(&log[..size], &mut out);
    io::write_all(1, &out[..end]);
}
