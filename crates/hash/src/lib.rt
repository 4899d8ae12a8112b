// SHA-256 (FIPS 180-4). A running hash is begun, takes the message's bytes in any number of parts, and is finished; its digest is then the
// message's. Each step takes the state by value and hands it on: 104 bytes, no heap.
#![tactic(auto)]

mod padding;

ghost use Rattle.std.specs.Prelude.{◌≡◌};
ghost use Rattle.hash.specs.Sha256 as spec;
ghost use Rattle.hash.specs.State.{blocks, Begins, Takes};

use base::number::to_be32;
use base::slice::put;
use padding::{padding_bytes, padding_length};
use sha256_block::compress;

// The initial hash value, FIPS 180-4 section 5.3.3.
const INITIAL: [u32; 8] = [
    0x6a09_e667,
    0xbb67_ae85,
    0x3c6e_f372,
    0xa54f_f53a,
    0x510e_527f,
    0x9b05_688c,
    0x1f83_d9ab,
    0x5be0_cd19,
];

// The hash value after each whole block of bytes.
fn absorb(h: [u32; 8], bytes: &[u8]) -> [u32; 8]
    ensures { result ≡ spec.hash_value h bytes.now (blocks bytes.now) }
{
    let n = bytes.len() / 64;
    let mut s = h;
    let mut i: usize = 0;
    while i < n {
        let x = compress(s, &bytes[i * 64..i * 64 + 64]);
        s = x;
        i += 1;
    }
    s
}

#[derive(Drop)]
pub struct Sha256 {
    // the hash value after the whole blocks
    pub words: [u32; 8],
    // the unfinished block: its first len % 64 bytes wait
    pub block: [u8; 64],
    // how many bytes were taken, modulo 2^64
    pub len: u64,
}

impl Sha256 {
    pub fn begin() -> Self
        ensures { Begins result }
    {
        Sha256 {
            words: INITIAL,
            block: [0; 64],
            len: 0,
        }
    }

    pub fn take(self, bytes: &[u8]) -> Self
        ensures { Takes self bytes.now result }
    {
        let words = self.words;
        let mut block = self.block;
        let len = self.len;
        let at = (len % 64) as usize;
        let room = 64 - at;
        let total = std::num::wrapping_add_u64(len, bytes.len() as u64);
        if bytes.len() < room {
            put(&mut block, at, bytes);
            return Sha256 {
                words: words,
                block: block,
                len: total,
            };
        }
        put(&mut block, at, &bytes[..room]);
        let rest = &bytes[room..];
        let hashed = absorb(compress(words, &block), rest);
        let done = rest.len() / 64 * 64;
        put(&mut block, 0, &rest[done..]);
        Sha256 {
            words: hashed,
            block: block,
            len: total,
        }
    }

    // Takes the padding, after which no bytes wait and the words are the digest's.
    pub fn finish(self) -> Self
        ensures { Takes self (spec.padding self.len) result }
    {
        let len = self.len;
        let bytes = padding_bytes(len);
        let n = padding_length(len);
        self.take(&bytes[..n])
    }

    // The words as bytes: of a state that was finished, the digest.
    pub fn digest(self) -> [u8; 32]
        ensures { result ≡ spec.digest self.words }
    {
        let words = self.words;
        let mut bytes = [0u8; 32];
        let mut i: usize = 0;
        while i < 8 {
            let w = to_be32(words[i]);
            put(&mut bytes, 4 * i, &w);
            i += 1;
        }
        bytes
    }
}

// The SHA-256 digest of one slice.
pub fn digest_of(bytes: &[u8]) -> [u8; 32]
    ensures { result ≡ spec.sha256 bytes.now }
{
    Sha256::begin().take(bytes).finish().digest()
}
