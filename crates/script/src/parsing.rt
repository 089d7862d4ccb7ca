// Reading a line, byte by byte: one letter, then decimal numbers, one space before each.
ghost use Rattle.std.specs.Prelude.{◌≡◌, ◌+◌, ◌*◌, ◌^◌, ◌<◌, List, [], ◌∷◌, ℕ, SomeIff};
ghost use Rattle.script.specs.Commands.{alone, with_one, with_two, with_three, with_four};
ghost use Rattle.script.specs.Meant.{meant, line_meant};

use crate::{Command, Line, Reading};

// The command of a letter with no number.
#[tactic(auto, unfolding(crate::specs::Commands::alone))]
fn of_none(letter: u8) -> Option<Command>
    ensures { result ≡ alone letter }
{
    match letter {
        b'f' => Some(Command::Format),
        b'o' => Some(Command::Open),
        b'e' => Some(Command::End),
        b'l' => Some(Command::LogStep),
        b'c' => Some(Command::CleanStep),
        b'x' => Some(Command::Cut),
        b'g' => Some(Command::Digests),
        _ => None,
    }
}

// The command of a letter with one number.
#[tactic(auto, unfolding(crate::specs::Commands::with_one))]
fn of_one(letter: u8, number: u64) -> Option<Command>
    ensures { result ≡ with_one letter number }
{
    match letter {
        b'b' => Some(Command::Begin(number)),
        b'r' => Some(Command::Read(number)),
        b's' => Some(Command::Settled(number)),
        b't' => Some(Command::Next(number)),
        _ => None,
    }
}

// The command of a letter with two numbers.
#[tactic(auto, unfolding(crate::specs::Commands::with_two))]
fn of_two(letter: u8, place: u64, value: u64) -> Option<Command>
    ensures { result ≡ with_two letter place value }
{
    match letter {
        b'p' if value < 256 => Some(Command::Poke { place, value }),
        _ => None,
    }
}

// The command of a letter with three.
#[tactic(auto, unfolding(crate::specs::Commands::with_three))]
fn of_three(letter: u8, slots: u64, pages: u64, frames: u64) -> Option<Command>
    ensures { result ≡ with_three letter slots pages frames }
{
    let sized = (8..=64).contains(&slots) && (1..=16).contains(&pages) && (1..=8).contains(&frames);
    match letter {
        b'a' if sized => Some(Command::Areas {
            slots,
            pages,
            frames,
        }),
        _ => None,
    }
}

// The command of a letter with four.
#[tactic(auto, unfolding(crate::specs::Commands::with_four))]
fn of_four(letter: u8, first: u64, second: u64, third: u64, last: u64) -> Option<Command>
    ensures { result ≡ with_four letter first second third last }
{
    match letter {
        b'n' => Some(Command::Lend {
            log: first,
            home: second,
            frames: third,
            staging: last,
        }),
        b'd' if third <= 512 => Some(Command::Describe {
            page: first,
            offset: second,
            length: third,
            seed: last,
        }),
        _ => None,
    }
}

// The command of a letter and numbers that the line's end closes.
fn line_command(line: Line) -> Option<Command>
    ensures { result ≡ line_meant line [] }
{
    if line.count == 0 {
        return of_none(line.letter);
    }
    if !line.digits {
        return None;
    }
    match line.count {
        1 => of_one(line.letter, line.last),
        2 => of_two(line.letter, line.third, line.last),
        3 => of_three(line.letter, line.second, line.third, line.last),
        _ => of_four(line.letter, line.first, line.second, line.third, line.last),
    }
}

// The command of a line that ends here, or None: it is no command, or a number is out of the range that the language gives it.
#[tactic(auto, unfolding(crate::specs::Meant::meant, crate::specs::Lines::words_of, crate::specs::Lines::command_in))]
pub fn command_of(reading: Reading) -> Option<Command>
    ensures { result ≡ meant reading [] }
{
    match reading {
        Reading::Nothing => None,
        Reading::Partly(line) => line_command(line),
        Reading::Wrong => None,
    }
}

// A line's first byte.
fn begun(letter: u8) -> Reading
    ensures { (rest : List ℕ) → meant result rest ≡ meant Reading.Nothing (letter ∷ rest) }
{
    if letter == b' ' {
        return Reading::Wrong;
    }
    Reading::Partly(Line {
        letter,
        count: 0,
        digits: false,
        first: 0,
        second: 0,
        third: 0,
        last: 0,
    })
}

// A space more: a number begins.
fn spaced(line: Line) -> Reading
    ensures { (rest : List ℕ) → meant result rest ≡ line_meant line (32 ∷ rest) }
{
    if line.count != 0 && !line.digits {
        return Reading::Wrong;
    }
    if 4 <= line.count {
        return Reading::Wrong;
    }
    Reading::Partly(Line {
        count: line.count + 1,
        digits: false,
        first: line.second,
        second: line.third,
        third: line.last,
        last: 0,
        ..line
    })
}

// A number with a digit more, if it fits in 64 bits.
fn extended(number: u64, digit: u64) -> Option<u64>
    ensures { SomeIff result (number * 10 + digit < 2 ^ 64) (number * 10 + digit) }
{
    number.checked_mul(10)?.checked_add(digit)
}

// A byte more that is no space: the newest number goes on.
fn continued(line: Line, byte: u8) -> Reading
    requires { byte ≡ 32 → ⊥ }
    ensures { (rest : List ℕ) → meant result rest ≡ line_meant line (byte ∷ rest) }
{
    if line.count == 0 || !byte.is_ascii_digit() {
        return Reading::Wrong;
    }
    let digit = u64::from(byte - b'0');
    match extended(line.last, digit) {
        Some(last) => Reading::Partly(Line {
            digits: true,
            last,
            ..line
        }),
        None => Reading::Wrong,
    }
}

// A byte more of a line.
#[tactic(auto, unfolding(crate::specs::Meant::meant))]
pub fn turn(reading: Reading, byte: u8) -> Reading
    ensures { (rest : List ℕ) → meant result rest ≡ meant reading (byte ∷ rest) }
{
    match reading {
        Reading::Nothing => begun(byte),
        Reading::Partly(line) if byte == b' ' => spaced(line),
        Reading::Partly(line) => continued(line, byte),
        Reading::Wrong => Reading::Wrong,
    }
}
