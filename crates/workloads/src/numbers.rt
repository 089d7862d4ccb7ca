// Numbers that look random, and the digest of the answers.
ghost use Rattle.std.specs.Prelude.{◌≡◌, ◌+◌, ◌*◌, ◌%◌, ◌^◌};

// The number after x.
pub fn after(x: u64) -> u64
    ensures { result ≡ (x % 2 ^ 31 * 1103515245 + 12345) % 2 ^ 31 }
{
    (x % 2147483648 * 1103515245 + 12345) % 2147483648
}

// The digest with a value more.
pub fn note(digest: u64, value: u64) -> u64
    ensures { result ≡ digest % 2 ^ 48 * 31 + value % 2 ^ 48 }
{
    digest % 281474976710656 * 31 + value % 281474976710656
}

// The digest with an accepted call's value more.
pub fn accepted(digest: u64, value: u64) -> u64 {
    note(digest, 16 + value % 281474976710656)
}
