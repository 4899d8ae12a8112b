// SHA-256 of one block of 64 bytes: the message schedule and the 64 rounds, FIPS 180-4 section 6.2.2.
#![tactic(auto)]

mod constants;
mod word;

ghost use Rattle.std.specs.Prelude.{◌≡◌, List, ℕ, ◌+◌, ◌≤◌, ◌<◌, length, take};
ghost use Rattle.sha256_block.specs.Block as spec;

use constants::K;
use word::{
    add2, add4, add5, big_sigma0, big_sigma1, ch, from_bytes, maj, small_sigma0, small_sigma1,
};

// The sixteen words of a block, and zeros where the schedule's other words go.
fn block_words(block: &[u8]) -> [u32; 64]
    requires { length block.now ≡ 64 }
    ensures { take 16 result ≡ spec.words block.now }
{
    let mut w = [0u32; 64];
    let mut t: usize = 0;
    while t < 16 {
        w[t] = from_bytes(
            block[4 * t],
            block[4 * t + 1],
            block[4 * t + 2],
            block[4 * t + 3],
        );
        t += 1;
    }
    w
}

// The message schedule, from its first sixteen words.
fn schedule(m: [u32; 64]) -> [u32; 64]
    ensures { result ≡ spec.schedule 48 (take 16 m) }
{
    let mut w = m;
    let mut t: usize = 16;
    while t < 64 {
        w[t] = add4(
            small_sigma1(w[t - 2]),
            w[t - 7],
            small_sigma0(w[t - 15]),
            w[t - 16],
        );
        t += 1;
    }
    w
}

fn t1(k: u32, w: u32, v: [u32; 8]) -> u32
    ensures { result ≡ spec.T₁ k w v }
{
    add5(v[7], big_sigma1(v[4]), ch(v[4], v[5], v[6]), k, w)
}

fn t2(v: [u32; 8]) -> u32
    ensures { result ≡ spec.T₂ v }
{
    add2(big_sigma0(v[0]), maj(v[0], v[1], v[2]))
}

// The working variables a to h are v[0] to v[7].
fn round(k: u32, w: u32, v: [u32; 8]) -> [u32; 8]
    ensures { result ≡ spec.round k w v }
{
    let x = t1(k, w, v);
    [
        add2(x, t2(v)),
        v[0],
        v[1],
        v[2],
        add2(v[3], x),
        v[4],
        v[5],
        v[6],
    ]
}

// Round t of the schedule w, where k is the table K.
fn round_at(k: &[u32; 64], w: &[u32; 64], t: usize, v: [u32; 8]) -> [u32; 8]
    requires { (t < 64) × (k.now ≡ spec.K) }
    ensures { (h : List ℕ) → v ≡ spec.rounds t w.now h → result ≡ spec.rounds (t + 1) w.now h }
{
    round(k[t], w[t], v)
}

// Rounds t to t + 7: written out, since the compiler does not unroll the loop over them, and that costs a tenth of the time.
fn eight_rounds(k: &[u32; 64], w: &[u32; 64], t: usize, v: [u32; 8]) -> [u32; 8]
    requires { (t + 8 ≤ 64) × (k.now ≡ spec.K) }
    ensures { (h : List ℕ) → v ≡ spec.rounds t w.now h → result ≡ spec.rounds (t + 8) w.now h }
{
    let v1 = round_at(k, w, t, v);
    let v2 = round_at(k, w, t + 1, v1);
    let v3 = round_at(k, w, t + 2, v2);
    let v4 = round_at(k, w, t + 3, v3);
    let v5 = round_at(k, w, t + 4, v4);
    let v6 = round_at(k, w, t + 5, v5);
    let v7 = round_at(k, w, t + 6, v6);
    round_at(k, w, t + 7, v7)
}

fn rounds(w: [u32; 64], h: [u32; 8]) -> [u32; 8]
    ensures { result ≡ spec.rounds 64 w h }
{
    // a copy of the table: indexed in the loop, the constant would be laid on the stack anew in each turn
    let k = K;
    let mut v = h;
    let mut t: usize = 0;
    while t < 64 {
        let x = eight_rounds(&k, &w, t, v);
        v = x;
        t += 8;
    }
    v
}

fn sums(v: [u32; 8], h: [u32; 8]) -> [u32; 8]
    ensures { result ≡ spec.sums v h }
{
    let mut s = [0u32; 8];
    let mut i: usize = 0;
    while i < 8 {
        s[i] = add2(v[i], h[i]);
        i += 1;
    }
    s
}

// The hash value after one more block of 64 bytes.
pub fn compress(h: [u32; 8], block: &[u8]) -> [u32; 8]
    requires { length block.now ≡ 64 }
    ensures { result ≡ spec.compress h block.now }
{
    sums(rounds(schedule(block_words(block)), h), h)
}
