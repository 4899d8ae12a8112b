// SHA-256 for the benchmark in bench/ alone: no part of the library that ships, and not in its header.
#![tactic(auto)]

ghost use Rattle.std.specs.Prelude.{◌≡◌};
ghost use Rattle.hash.specs.Sha256.{sha256};

use hash::digest_of;

// void bench_hash_sha256(const uint8_t *bytes, size_t len, uint8_t out[32])
#[unsafe(no_mangle)]
pub extern "C" fn bench_hash_sha256(bytes: &[u8], out: &mut [u8; 32])
    ensures { out.new ≡ sha256 bytes.now }
{
    let digest = digest_of(bytes);
    *out = digest;
}
