// Standard output, as the programs of this repository print on it: what it does not take, also where a signal interrupts a write, is left out,
// and the program goes on to its end.
#![tactic(auto)]

ghost use Rattle.std.specs.Prelude.{IsOk};

use std::fmt;
use std::fmt::{Display, Formatter};

// Standard output's number.
const STDOUT: i32 = 1;

// Standard output. Its prints never fail.
#[derive(Clone, Copy, Drop)]
pub struct Output;

// The text of a print, up to this many bytes: it goes out in one write where it fits, else in parts.
const TEXT: usize = 128;

// What of a print is not written yet.
#[derive(Drop)]
struct Text {
    bytes: [u8; TEXT],
    len: usize,
}

impl Text {
    fn new() -> Text {
        Text {
            bytes: [0; TEXT],
            len: 0,
        }
    }

    // Writes what is not written yet.
    fn flush(&mut self) {
        let len = self.len.min(TEXT);
        let bytes = &self.bytes[..];
        io::write_all(STDOUT, &bytes[..len]);
        self.len = 0;
    }
}

impl fmt::Write for Text {
    fn write_str(&mut self, part: &str) -> fmt::Result {
        let bytes = part.as_bytes();
        if TEXT < self.len.saturating_add(bytes.len()) {
            self.flush();
        }
        let len = self.len.min(TEXT);
        if TEXT - len < bytes.len() {
            io::write_all(STDOUT, bytes);
        } else {
            let end = len + bytes.len();
            self.bytes[len..end].copy_from_slice(bytes);
            self.len = end;
        }
        Ok(())
    }
}

// Prints a value and then the end of the print.
fn print_with<D: Display + Drop>(value: D, end: &str) {
    let mut formatter = Formatter::new(Text::new());
    let _ = formatter.write(&value);
    let _ = formatter.write(end);
    let mut text = formatter.into_inner();
    text.flush();
}

impl Print for Output {
    fn print<D: Display + Drop>(&self, value: D) -> std::io::Result<()>
        ensures { IsOk result }
    {
        print_with(value, "");
        Ok(())
    }

    fn println<D: Display + Drop>(&self, value: D) -> std::io::Result<()>
        ensures { IsOk result }
    {
        print_with(value, "\n");
        Ok(())
    }

    fn write_all(&self, bytes: &[u8]) -> std::io::Result<()>
        ensures { IsOk result }
    {
        io::write_all(STDOUT, bytes);
        Ok(())
    }
}
