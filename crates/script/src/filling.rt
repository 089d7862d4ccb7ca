// The bytes that commands ask for: home as it is found, what Describe describes.
ghost use Rattle.std.specs.Prelude.{◌≡◌, length};
ghost use Rattle.script.specs.Fills.{home_of, described_of};

use block::Block;

// Sets byte i of home to (i + 31 * (i / 1024)) % 251.
pub fn home_bytes(home: &mut [u8])
    ensures { home.new ≡ home_of (length home.old) }
{
    for (i, byte) in home.iter_mut().enumerate() {
        *byte = ((i + 31 * (i / Block::PAGE)) % 251) as u8;
    }
}

// Sets byte j of bytes to (seed + 13 * j) % 256.
pub fn describe_bytes(bytes: &mut [u8], seed: u64)
    ensures { bytes.new ≡ described_of seed (length bytes.old) }
{
    let mut value = seed % 256;
    for byte in bytes.iter_mut() {
        *byte = value as u8;
        value = (value + 13) % 256;
    }
}
