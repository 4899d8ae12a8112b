// Operations on words of 32 bits, FIPS 180-4 sections 3.2 and 4.1.2.
ghost use Rattle.std.specs.Prelude.{◌≡◌, ◌+◌, ◌*◌, ◌^◌, ◌<◌};
ghost use Rattle.sha256_block.specs.Block.{◌⊞◌};
ghost use Rattle.sha256_block.specs.Block as spec;

// Sums modulo 2^32, of two, four and five words.
pub(crate) fn add2(a: u32, b: u32) -> u32
    ensures { result ≡ a ⊞ b }
{
    ((a as u64 + b as u64) % 4294967296) as u32
}

pub(crate) fn add4(a: u32, b: u32, c: u32, d: u32) -> u32
    ensures { result ≡ a ⊞ b ⊞ c ⊞ d }
{
    ((a as u64 + b as u64 + c as u64 + d as u64) % 4294967296) as u32
}

pub(crate) fn add5(a: u32, b: u32, c: u32, d: u32, e: u32) -> u32
    ensures { result ≡ a ⊞ b ⊞ c ⊞ d ⊞ e }
{
    ((a as u64 + b as u64 + c as u64 + d as u64 + e as u64) % 4294967296) as u32
}

fn rotr(x: u32, n: u32) -> u32
    requires { (0 < n) × (n < 32) }
    ensures { result ≡ spec.ROTR n x }
{
    x >> n | x << (32 - n)
}

pub(crate) fn ch(x: u32, y: u32, z: u32) -> u32
    ensures { result ≡ spec.Ch x y z }
{
    (x & y) ^ (!x & z)
}

pub(crate) fn maj(x: u32, y: u32, z: u32) -> u32
    ensures { result ≡ spec.Maj x y z }
{
    (x & y) ^ (x & z) ^ (y & z)
}

pub(crate) fn big_sigma0(x: u32) -> u32
    ensures { result ≡ spec.Σ₀ x }
{
    rotr(x, 2) ^ rotr(x, 13) ^ rotr(x, 22)
}

pub(crate) fn big_sigma1(x: u32) -> u32
    ensures { result ≡ spec.Σ₁ x }
{
    rotr(x, 6) ^ rotr(x, 11) ^ rotr(x, 25)
}

pub(crate) fn small_sigma0(x: u32) -> u32
    ensures { result ≡ spec.σ₀ x }
{
    rotr(x, 7) ^ rotr(x, 18) ^ x >> 3
}

pub(crate) fn small_sigma1(x: u32) -> u32
    ensures { result ≡ spec.σ₁ x }
{
    rotr(x, 17) ^ rotr(x, 19) ^ x >> 10
}

// The word whose bytes are a, b, c, d, the highest first. Sums of products and not shifts: proved with no file, compiled to one load.
pub(crate) fn from_bytes(a: u8, b: u8, c: u8, d: u8) -> u32
    ensures { result ≡ a * 2 ^ 24 + b * 2 ^ 16 + c * 2 ^ 8 + d }
{
    a as u32 * 16777216 + b as u32 * 65536 + c as u32 * 256 + d as u32
}
