// Numbers with a separator between them: what A and AAAA have in common, read and written.
ghost use Rattle.std.specs.Prelude.{◌≡◌, ◌⊎◌, ◌+◌, ◌≤◌, length};
ghost use Rattle.base.specs.Bytes.{overlay};
ghost use Rattle.text.specs.Digits.{preceded};
ghost use Rattle.text.specs.Field as spec;

use crate::digit::digit_value;
use base::slice::put;

// How the numbers of a word are written.
#[derive(Clone, Copy)]
pub struct Form {
    pub base: u32,
    pub separator: u8,
    // the most digits of a number
    pub most: u8,
    pub greatest: u32,
    pub leading_zeros: bool,
    // how many numbers
    pub count: u8,
}

// A number with one more digit, of value d; or none where it may not have it.
fn with_digit(form: Form, value: u32, digits: u8, d: u8) -> Option<u32>
    requires usable { spec.Usable form }
    requires value_bound { value ≤ 65535 }
    ensures { spec.Extended form value digits d result }
{
    let digit = d as u32;
    if form.base <= digit || form.most <= digits {
        return None;
    }
    if !form.leading_zeros && 0 < digits && value == 0 {
        return None;
    }
    let next = value * form.base + digit;
    if form.greatest < next {
        return None;
    }
    Some(next)
}

// Up to eight numbers of 16 bits, zeros after them, that a word of this form is. Each byte is looked at once.
pub fn read_fields(word: &[u8], form: Form) -> Option<[u16; 8]>
    requires { spec.Usable form }
    ensures { spec.Numbered form word.now result ⊎ spec.NotNumbered form word.now result }
{
    let last = form.count - 1;
    let mut values = [0u16; 8];
    // how many numbers are complete; the next one so far, and how many digits it has
    let mut k: u8 = 0;
    let mut value: u32 = 0;
    let mut digits: u8 = 0;
    for b in word {
        if *b == form.separator {
            if digits == 0 || last <= k {
                return None;
            }
            values[k as usize] = value as u16;
            k += 1;
            value = 0;
            digits = 0;
        } else {
            value = with_digit(form, value, digits, digit_value(*b))?;
            digits += 1;
        }
    }
    if digits == 0 || k != last {
        return None;
    }
    values[k as usize] = value as u16;
    Some(values)
}

// Writes a part into `to` from index `at` on, after the separator unless it is the first; and answers where it ends.
pub fn put_part(to: &mut [u8], at: usize, separator: u8, first: bool, part: &[u8]) -> usize
    requires { at + length (preceded first separator part.now) ≤ length to.old }
    ensures value { result ≡ at + length (preceded first separator part.now) }
    ensures to_after { to.new ≡ overlay to.old at (preceded first separator part.now) }
{
    if first {
        put(to, at, part);
        return at + part.len();
    }
    to[at] = separator;
    put(to, at + 1, part);
    at + 1 + part.len()
}
