// The lines of a listing, each made as a text and written into a lent slice. It knows a block's fields, and nothing of a log.
#![tactic(auto)]

ghost use Rattle.std.specs.Prelude.{◌≡◌, ◌+◌, ◌≤◌, ◌++◌, length};
ghost use Rattle.lines.specs.Text.{decimal, newline, field as field_text, line_most, first_line, kind_text, block_line, refused_line, Shows};

use arrayvec::ArrayString;
use block::{Block, Kind};
use itoa::Buffer;

// The most bytes of a line.
pub const LINE: usize = 160;

// A line as it is made.
type Line = ArrayString<LINE>;

// Adds a number in decimal.
fn add_number(line: &mut Line, number: u64)
    requires { length line.old.bytes + 20 ≤ line_most }
    ensures is { line.new.bytes ≡ line.old.bytes ++ decimal number }
    ensures most { length line.new.bytes ≤ length line.old.bytes + 20 }
{
    line.push_str(Buffer::new().format(number));
}

// Adds a word and a number.
fn add_field(line: &mut Line, word: &str, number: u64)
    requires { length line.old.bytes + length word.now + 20 ≤ line_most }
    ensures is { line.new.bytes ≡ line.old.bytes ++ field_text word.now number }
    ensures most { length line.new.bytes ≤ length line.old.bytes + length word.now + 20 }
{
    line.push_str(word);
    add_number(line, number);
}

// Adds what a block's line says of its kind.
fn add_kind(line: &mut Line, kind: Kind)
    requires { length line.old.bytes + 89 ≤ line_most }
    ensures is { line.new.bytes ≡ line.old.bytes ++ kind_text kind }
    ensures most { length line.new.bytes ≤ length line.old.bytes + 89 }
{
    match kind {
        Kind::Update {
            page,
            offset,
            length,
            ..
        } => {
            add_field(line, " update page ", page as u64);
            add_field(line, " offset ", offset as u64);
            add_field(line, " length ", length as u64);
        }
        Kind::Commit { updates } => add_field(line, " commit updates ", updates as u64),
        Kind::Clean { page } => add_field(line, " clean page ", page as u64),
    }
}

// Writes a line with its newline, and answers its length.
fn write_line(mut line: Line, out: &mut [u8]) -> usize
    requires room { length line.bytes + 1 ≤ line_most }
    requires fits { line_most ≤ length out.old }
    ensures { Shows (line.bytes ++ newline) out.old out.new result }
{
    line.push_str("\n");
    out[..line.len()].copy_from_slice(line.as_bytes());
    line.len()
}

// Writes the first line of a listing and answers its length, as the two functions below do.
pub fn first_line(out: &mut [u8], slots: u64, newest: u64, keep: u64, ticket: u64) -> usize
    requires { line_most ≤ length out.old }
    ensures { Shows (first_line slots newest keep ticket) out.old out.new result }
{
    let mut line = Line::new();
    add_field(&mut line, "blocks ", slots);
    add_field(&mut line, " newest ", newest);
    add_field(&mut line, " keep ", keep);
    add_field(&mut line, " ticket ", ticket);
    write_line(line, out)
}

// Writes the line of a block.
pub fn block_line(out: &mut [u8], block: Block) -> usize
    requires { line_most ≤ length out.old }
    ensures { Shows (block_line block) out.old out.new result }
{
    let mut line = Line::new();
    add_number(&mut line, block.sequence);
    add_kind(&mut line, block.kind);
    add_field(&mut line, " ticket ", block.ticket);
    write_line(line, out)
}

// Writes the line of a refusal and its place.
pub fn refused_line(out: &mut [u8], refusal: u64, place: u64) -> usize
    requires { line_most ≤ length out.old }
    ensures { Shows (refused_line refusal place) out.old out.new result }
{
    let mut line = Line::new();
    add_field(&mut line, "refused ", refusal);
    add_field(&mut line, " ", place);
    write_line(line, out)
}
