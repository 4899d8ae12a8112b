// The data of A and AAAA records in text.
#![tactic(auto)]

ghost use Rattle.std.specs.Prelude.{◌≡◌, ℕ, ◌+◌, ◌*◌, ◌≤◌, ◌<◌, length, get_or};
ghost use Rattle.base.specs.Bytes.{overlay, tabulate};
ghost use Rattle.base.specs.Logic.{Decides};
ghost use Rattle.text.specs.Digits.{digit_value};
ghost use Rattle.address.specs.Address as spec;
ghost use Rattle.text.specs.Reading.{Decodes};

use base::slice::put;
use text::digit::{DecimalByte, decimal, hex_digit};
use text::field::{Form, put_part, read_fields};

// Four decimal numbers from 0 to 255, with no leading zeros, and dots between them.
const OCTETS: Form = Form {
    base: 10,
    separator: b'.',
    most: 3,
    greatest: 255,
    leading_zeros: false,
    count: 4,
};

// Eight groups of up to four hexadecimal digits, with colons between them.
const GROUPS: Form = Form {
    base: 16,
    separator: b':',
    most: 4,
    greatest: 65535,
    leading_zeros: true,
    count: 8,
};

pub fn read_a(word: &[u8]) -> Option<[u8; 4]>
    ensures { Decodes (spec.SpellsA word.now) result }
{
    let values = read_fields(word, OCTETS)?;
    let mut bytes = [0u8; 4];
    for i in 0..4 {
        bytes[i] = values[i] as u8;
    }
    Some(bytes)
}

// The value of each byte as a digit, sixteen bytes a line.
const DIGIT_VALUE: [u8; 256] = *b"\
    \x10\x10\x10\x10\x10\x10\x10\x10\x10\x10\x10\x10\x10\x10\x10\x10\
    \x10\x10\x10\x10\x10\x10\x10\x10\x10\x10\x10\x10\x10\x10\x10\x10\
    \x10\x10\x10\x10\x10\x10\x10\x10\x10\x10\x10\x10\x10\x10\x10\x10\
    \x00\x01\x02\x03\x04\x05\x06\x07\x08\x09\x10\x10\x10\x10\x10\x10\
    \x10\x0a\x0b\x0c\x0d\x0e\x0f\x10\x10\x10\x10\x10\x10\x10\x10\x10\
    \x10\x10\x10\x10\x10\x10\x10\x10\x10\x10\x10\x10\x10\x10\x10\x10\
    \x10\x0a\x0b\x0c\x0d\x0e\x0f\x10\x10\x10\x10\x10\x10\x10\x10\x10\
    \x10\x10\x10\x10\x10\x10\x10\x10\x10\x10\x10\x10\x10\x10\x10\x10\
    \x10\x10\x10\x10\x10\x10\x10\x10\x10\x10\x10\x10\x10\x10\x10\x10\
    \x10\x10\x10\x10\x10\x10\x10\x10\x10\x10\x10\x10\x10\x10\x10\x10\
    \x10\x10\x10\x10\x10\x10\x10\x10\x10\x10\x10\x10\x10\x10\x10\x10\
    \x10\x10\x10\x10\x10\x10\x10\x10\x10\x10\x10\x10\x10\x10\x10\x10\
    \x10\x10\x10\x10\x10\x10\x10\x10\x10\x10\x10\x10\x10\x10\x10\x10\
    \x10\x10\x10\x10\x10\x10\x10\x10\x10\x10\x10\x10\x10\x10\x10\x10\
    \x10\x10\x10\x10\x10\x10\x10\x10\x10\x10\x10\x10\x10\x10\x10\x10\
    \x10\x10\x10\x10\x10\x10\x10\x10\x10\x10\x10\x10\x10\x10\x10\x10";

// The table, to be taken once before a loop: the machine builds it on the stack wherever it is asked for.
fn digit_values() -> [u8; 256]
    ensures { result ≡ tabulate digit_value 256 }
{
    DIGIT_VALUE
}

// Whether a colon stands behind each group but the last, where each has four digits.
fn has_colons(word: &[u8]) -> bool
    requires { length word.now ≡ 39 }
    ensures { Decides result ((j : ℕ) → j < 7 → get_or word.now (5 * j + 4) 0 ≡ 58) }
{
    (0..7).all(|j| word[5 * j + 4] == b':')
}

// An AAAA in 39 bytes, as it is written: each group has four digits, or they would be fewer bytes. So each byte's two digits stand at a known place,
// and a table gives their values with no branch on what they are.
fn read_whole(word: &[u8]) -> Option<[u8; 16]>
    requires { length word.now ≡ 39 }
    ensures { Decodes (spec.SpellsAAAA word.now) result }
{
    if !has_colons(word) {
        return None;
    }
    let values = digit_values();
    let mut bytes = [0u8; 16];
    for k in 0..16 {
        let at = 2 * k + k / 2;
        let high = values[word[at] as usize];
        let low = values[word[at + 1] as usize];
        if 15 < high || 15 < low {
            return None;
        }
        bytes[k] = high * 16 + low;
    }
    Some(bytes)
}

pub fn read_aaaa(word: &[u8]) -> Option<[u8; 16]>
    ensures { Decodes (spec.SpellsAAAA word.now) result }
{
    if word.len() == 39 {
        return read_whole(word);
    }
    let values = read_fields(word, GROUPS)?;
    let mut bytes = [0u8; 16];
    for i in 0..8 {
        put(&mut bytes, 2 * i, &values[i].to_be_bytes());
    }
    Some(bytes)
}

// How long an A record's data are in text.
pub fn a_length(bytes: &[u8]) -> usize
    requires { length bytes.now ≡ 4 }
    ensures { result ≡ length (spec.written_a bytes.now) }
{
    let mut n: usize = 0;
    for b in bytes {
        // the digits, and the dot after them but for the last
        n += 1 + decimal(*b).len;
    }
    n - 1
}

// Writes an A record's data into `to`, from index `at` on, and answers how many bytes that is.
pub fn put_a(to: &mut [u8], at: usize, bytes: &[u8]) -> usize
    requires { at + length (spec.written_a bytes.now) ≤ length to.old }
    ensures value { result ≡ length (spec.written_a bytes.now) }
    ensures to_after { to.new ≡ overlay to.old at (spec.written_a bytes.now) }
{
    let mut end = at;
    for (i, b) in bytes.iter().enumerate() {
        let DecimalByte { digits, len } = decimal(*b);
        end = put_part(to, end, b'.', i == 0, &digits[..len]);
    }
    end - at
}

// Two bytes in four hexadecimal digits.
#[tactic(auto, unfolding(crate::specs::Address::four_of))]
fn four_digits(a: u8, b: u8) -> [u8; 4]
    ensures { result ≡ spec.four_of a b }
{
    [
        hex_digit(a / 16),
        hex_digit(a % 16),
        hex_digit(b / 16),
        hex_digit(b % 16),
    ]
}

// Writes an AAAA record's data into `to`, from index `at` on: 39 bytes.
pub fn put_aaaa(to: &mut [u8], at: usize, bytes: &[u8])
    requires bytes_len { length bytes.now ≡ 16 }
    requires at_in_bounds { at + 39 ≤ length to.old }
    ensures { to.new ≡ overlay to.old at (spec.written_aaaa bytes.now) }
{
    let mut end = at;
    for i in 0..8 {
        let group = four_digits(bytes[2 * i], bytes[2 * i + 1]);
        end = put_part(to, end, b':', i == 0, &group);
    }
}
