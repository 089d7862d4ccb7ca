// The check of a block: A and B of its first 508 bytes in one pass, each byte read once, one remainder each at the end.
//
// The bytes stand in sixteen rows of 32, with four zeros before the first row: zeros in front count nothing. Lane l of sixteen takes
// from each row the pair of bytes 2 l and 2 l + 1, as one number with the lower byte first. It sums these numbers modulo 65,536, and
// the upper bytes alone, which tell at the end what the lower ones sum to. A byte counts 32 times more for each row after its own: the
// totals take in the sums before each row. No lane waits for another, and the compiler keeps them in vector registers.
ghost use Rattle.std.specs.Prelude.{◌≡◌, ℕ, ◌+◌, ◌-◌, ◌*◌, ◌<◌, ◌≤◌, ◌++◌, length, slice_index};
ghost use Rattle.std.specs.List.{concat};
ghost use Rattle.block.specs.Sizes.{body_size};
ghost use Rattle.block.specs.Check.{check_a, check_b, modulus};
ghost use Rattle.block.specs.Lanes.{lower_of, LanesMost, SumsMost, RowAdded, Summed, plain_of, weighted_of, uppers_of};

use crate::number;

const MODULUS: u32 = 65535;

// A and B.
#[derive(Clone, Copy)]
pub struct Sums {
    pub a: u64,
    pub b: u64,
}

// A and B before their remainders.
#[derive(Clone, Copy)]
struct Running {
    a: u32,
    b: u32,
}

// Sixteen lanes: the pairs of bytes and the upper bytes, summed over the rows; and what these sums were before each row, summed. The
// pairs and their totals are modulo 65,536.
#[derive(Clone, Copy)]
struct Lanes {
    pairs: [u16; 16],
    uppers: [u16; 16],
    pairtotals: [u16; 16],
    uppertotals: [u16; 16],
}

// What the lower bytes of pairs sum to, from the pairs' sum and that of the upper bytes.
fn lower(pairs: u16, uppers: u16) -> u16
    ensures { result ≡ lower_of pairs uppers }
{
    pairs.wrapping_sub(256 * (uppers % 256))
}

// The lanes once one more row is read. That its bytes are below 256 is said for `rows`, which does not see it of an array in a slice.
fn row(lanes: &mut Lanes, bytes: &[u8; 32])
    requires { LanesMost 3825 lanes.old.uppers × LanesMost 57375 lanes.old.uppertotals }
    ensures added { RowAdded lanes.old bytes.now lanes.new }
    ensures small { (i : ℕ) → slice_index bytes.now i < 256 }
{
    for lane in 0..16 {
        let number = number::get_pair(bytes, 2 * lane);
        let sum = lanes.pairs[lane];
        let upper = lanes.uppers[lane];
        lanes.pairtotals[lane] = lanes.pairtotals[lane].wrapping_add(sum);
        lanes.uppertotals[lane] += upper;
        lanes.pairs[lane] = sum.wrapping_add(number);
        lanes.uppers[lane] = upper + number / 256;
    }
}

// The lanes of a first row and up to fifteen more.
fn rows(first: &[u8; 32], more: &[[u8; 32]]) -> Lanes
    requires { length more.now ≤ 15 }
    ensures { Summed result (first.now ++ concat more.now) × SumsMost result }
{
    let mut lanes = Lanes {
        pairs: [0; 16],
        uppers: [0; 16],
        pairtotals: [0; 16],
        uppertotals: [0; 16],
    };
    row(&mut lanes, first);
    for bytes in more {
        row(&mut lanes, bytes);
    }
    lanes
}

// How often the lower byte of a lane's pair counts in its own row; the upper one counts once less.
fn weight(lane: usize) -> u32
    requires { lane < 16 }
    ensures { (result ≡ 32 - 2 * lane) × (1 ≤ result) × (result ≤ 32) }
{
    32 - 2 * lane as u32
}

// The two sums that lanes tell. A lane's sum is below 16,384: the remainder changes nothing, and tells the compiler that it has 14 bits,
// so that the products are products of 16 bits.
fn joined(lanes: Lanes) -> Running
    requires { SumsMost lanes }
    ensures { (result.a ≡ plain_of lanes) × (result.b + uppers_of lanes ≡ weighted_of lanes) }
{
    let mut a: u32 = 0;
    let mut b: u32 = 0;
    for lane in 0..16 {
        let upper = lanes.uppers[lane];
        let uppertotal = lanes.uppertotals[lane];
        let lowertotal = lower(lanes.pairtotals[lane], uppertotal);
        let sum = lower(lanes.pairs[lane], upper) + upper;
        let total = u32::from(lowertotal) + u32::from(uppertotal);
        let both = u32::from(sum % 16384);
        a += both;
        b += 32 * total + weight(lane) * both - u32::from(upper);
    }
    Running { a, b }
}

// A and B of what a block has before its check.
pub fn check_of(body: &[u8]) -> Sums
    requires { length body.now ≡ body_size }
    ensures { (result.a ≡ check_a modulus body.now) × (result.b ≡ check_b modulus body.now) }
{
    let mut first = [0; 32];
    first[4..].copy_from_slice(&body[..28]);
    let (more, _) = body[28..508].as_chunks::<32>();
    let sums = joined(rows(&first, more));
    Sums {
        a: u64::from(sums.a % MODULUS),
        b: u64::from(sums.b % MODULUS),
    }
}
