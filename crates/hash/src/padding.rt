// The padding of a message, FIPS 180-4 section 5.1.1.
ghost use Rattle.std.specs.Prelude.{◌≡◌, ◌+◌, take};
ghost use Rattle.base.specs.Bytes.{big_endian};
ghost use Rattle.hash.specs.Sha256 as spec;

use base::slice::put;

// The most that there can be: the byte 0x80, 63 zeros, and the length in 8 bytes.
const LONGEST: usize = 72;

// How long the padding of a message of len bytes is.
pub(crate) fn padding_length(len: u64) -> usize
    ensures { result ≡ 9 + spec.zero_bytes len }
{
    9 + ((119 - len % 64) % 64) as usize
}

// The eight bytes of x, the highest first.
fn be64(x: u64) -> [u8; 8]
    ensures { result ≡ big_endian 8 x }
{
    [
        ((x >> 56) % 256) as u8,
        ((x >> 48) % 256) as u8,
        ((x >> 40) % 256) as u8,
        ((x >> 32) % 256) as u8,
        ((x >> 24) % 256) as u8,
        ((x >> 16) % 256) as u8,
        ((x >> 8) % 256) as u8,
        (x % 256) as u8,
    ]
}

// The padding of a message of len bytes, at the beginning of 72.
pub(crate) fn padding_bytes(len: u64) -> [u8; 72]
    ensures { take (9 + spec.zero_bytes len) result ≡ spec.padding len }
{
    let mut p = [0u8; LONGEST];
    p[0] = 128;
    let bits = be64(len << 3);
    put(&mut p, padding_length(len) - 8, &bits);
    p
}
