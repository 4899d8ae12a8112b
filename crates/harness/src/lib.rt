// How the test programs look through bytes, and the lines that they print.
#![tactic(auto)]

ghost use Rattle.std.specs.Prelude.{◌≡◌, [], ◌∷◌, ◌+◌, ◌/◌, ◌%◌, ◌≤◌, length, take, drop, replicate};
ghost use Rattle.base.specs.Bytes.{overlay};
ghost use Rattle.base.specs.Logic.{Every, Decides};
ghost use Rattle.text.specs.Digits.{decimal, hex_digit};
ghost use Rattle.harness.specs.Finding.{FirstFrom};
ghost use Rattle.harness.specs.Printing.{hexadecimal, refusal, resource_record, fitting, followed};

use base::slice::put;
use text::digit::hex_digit;

// Standard input and output, as `io` takes them.
pub const STDIN: i32 = 0;

pub const STDOUT: i32 = 1;

// Is each of the bytes b?
pub fn is_all(bytes: &[u8], b: u8) -> bool
    ensures { Decides result (Every (λ x. x ≡ b) bytes.now) }
{
    bytes.iter().all(|x| *x == b)
}

// Where the byte b stands next, from `at` on; or the end.
pub fn find(text: &[u8], at: usize, b: u8) -> usize
    requires { at ≤ length text.now }
    ensures { FirstFrom text.now at b result }
{
    match text[at..].iter().position(|x| *x == b) {
        Some(i) => at + i,
        None => text.len(),
    }
}

// The first n bytes, or all where there are fewer. The lengths follow from that, and are promised too for callers' proofs to find.
pub fn first(bytes: &[u8], n: usize) -> &[u8]
    ensures result_value { result.now ≡ take n bytes.now }
    ensures result_len_bound { (length result.now ≤ n) × (length result.now ≤ length bytes.now) }
{
    if bytes.len() <= n {
        return bytes;
    }
    &bytes[..n]
}

// The bytes behind the first n.
pub fn rest(bytes: &[u8], n: usize) -> &[u8]
    ensures { result.now ≡ drop n bytes.now }
{
    if bytes.len() <= n {
        return &bytes[..0];
    }
    &bytes[n..]
}

// Copies as much of `from` into `to`, from index `at` on, as there is room for, and answers where it ends.
pub fn put_fitting(to: &mut [u8], at: usize, from: &[u8]) -> usize
    ensures value { result ≡ at + length (fitting to.old at from.now) }
    ensures to_after { to.new ≡ overlay to.old at (fitting to.old at from.now) }
{
    if to.len() <= at {
        return at;
    }
    let part = first(from, to.len() - at);
    put(to, at, part);
    at + part.len()
}

fn hex_pair(b: u8) -> [u8; 2]
    ensures { result ≡ hex_digit (b / 16) ∷ hex_digit (b % 16) ∷ [] }
{
    [hex_digit(b / 16), hex_digit(b % 16)]
}

// A line that a program prints: the first `len` of its bytes. What there is no room for is left out.
#[derive(Drop)]
pub struct Line {
    pub bytes: [u8; 1024],
    pub len: usize,
}

impl Line {
    pub fn begin() -> Self
        ensures { (result.bytes ≡ replicate 1024 0) × (result.len ≡ 0) }
    {
        Line {
            bytes: [0; 1024],
            len: 0,
        }
    }

    #[tactic(auto, unfolding(crate::specs::Printing::followed))]
    pub fn text(self, bytes: &[u8]) -> Self
        ensures { result ≡ followed self bytes.now }
    {
        let mut to = self.bytes;
        let end = put_fitting(&mut to, self.len, bytes);
        Line {
            bytes: to,
            len: end,
        }
    }

    // Two lower-case digits for each byte.
    pub fn hex(self, bytes: &[u8]) -> Self
        ensures { result ≡ followed self (hexadecimal bytes.now) }
    {
        let mut line = self;
        for b in bytes {
            line = line.text(&hex_pair(*b));
        }
        line
    }

    // In decimal.
    pub fn number(self, n: u64) -> Self
        ensures { result ≡ followed self (decimal 20 n) }
    {
        let mut digits = [0u8; 20];
        let k = io::decimal(n, &mut digits);
        self.text(&digits[..k])
    }

    pub fn refusal(self, number: u32, offset: u32) -> Self
        ensures { result ≡ followed self (refusal number offset) }
    {
        self.text(b"refused ")
            .number(number as u64)
            .text(b" at ")
            .number(offset as u64)
    }

    // The owner's bytes, the type's number and the data.
    pub fn resource_record(self, owner: &[u8], rtype: u8, rdata: &[u8]) -> Self
        ensures { result ≡ followed self (resource_record owner.now rtype rdata.now) }
    {
        self.hex(owner)
            .text(b" ")
            .number(rtype as u64)
            .text(b" ")
            .hex(rdata)
    }
}
