// Numbers in network byte order, the high byte first.
ghost use Rattle.std.specs.Prelude.{◌≡◌, ◌+◌, ◌*◌};
ghost use Rattle.base.specs.Bytes.{big_endian};

pub fn be16(high: u8, low: u8) -> u16
    ensures { result ≡ high * 256 + low }
{
    high as u16 * 256 + low as u16
}

// The bytes of a number, the highest first.
pub fn to_be32(x: u32) -> [u8; 4]
    ensures { result ≡ big_endian 4 x }
{
    [
        ((x >> 24) % 256) as u8,
        ((x >> 16) % 256) as u8,
        ((x >> 8) % 256) as u8,
        (x % 256) as u8,
    ]
}
