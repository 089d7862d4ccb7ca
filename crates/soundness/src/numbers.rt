// Whether numbers gathered from the state's arrays, page numbers or areas, are distinct.
ghost use Rattle.std.specs.Prelude.{◌≡◌};
ghost use Rattle.promises.specs.Sound.{distinct};

// Whether no number stands twice: each is held against the later ones. For few numbers.
// By any, not contains: that is a call of its own, and slowed the whole test where few numbers are held.
fn few_distinct(numbers: &[u16]) -> bool
    ensures { result ≡ distinct numbers.now }
{
    for (i, number) in numbers.iter().enumerate() {
        if numbers[i + 1..].iter().any(|later| number == later) {
            return false;
        }
    }
    true
}

// The same by a mark for each number below 4,096, in the bits of 64 words: for many numbers.
fn many_distinct(numbers: &[u16]) -> bool
    ensures { result ≡ distinct numbers.now }
{
    let mut seen = [0u64; 64];
    for number in numbers {
        let number = usize::from(*number);
        if 4096 <= number {
            return few_distinct(numbers);
        }
        let word = number / 64;
        let place = number % 64;
        let held = seen[word];
        if (held >> place) % 2 != 0 {
            return false;
        }
        seen[word] = held + (1u64 << place);
    }
    true
}

// Whether no number stands twice.
pub fn all_distinct(numbers: &[u16]) -> bool
    ensures { result ≡ distinct numbers.now }
{
    if numbers.len() < 9 {
        return few_distinct(numbers);
    }
    many_distinct(numbers)
}
