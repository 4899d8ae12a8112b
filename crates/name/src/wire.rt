// Names in wire form.
ghost use Rattle.std.specs.Prelude.{◌≡◌, ◌+◌, ◌≤◌, length};
ghost use Rattle.base.specs.Bytes.{overlay};
ghost use Rattle.base.specs.Logic.{Decides};
ghost use Rattle.name.specs.Name as spec;
ghost use Rattle.name.specs.NotInLabel as count;

use crate::byte::{is_label_byte, lower, not_in_label};

// The longest name, in bytes.
pub const LONGEST: usize = 255;

// The longest label, in bytes.
pub const LONGEST_LABEL: u8 = 63;

// How many bytes are looked at at a turn, where that can be done.
pub const CHUNK: usize = 16;

// Is this a proper name and nothing after it? Each byte is looked at once.
pub fn is_proper(name: &[u8]) -> bool
    ensures { Decides result (spec.Proper name.now) }
{
    if name.is_empty() || LONGEST < name.len() || name[0] == 0 {
        return false;
    }
    // how many bytes of the label are to come; 0 where a length stands next
    let mut left = 0;
    for (i, &b) in name.iter().enumerate() {
        if left == 0 {
            if b == 0 {
                return i + 1 == name.len();
            }
            if LONGEST_LABEL < b {
                return false;
            }
            left = b;
        } else {
            if !is_label_byte(b) {
                return false;
            }
            left -= 1;
        }
    }
    false
}

// How many bytes no label in canonical form has: with no way out before the last, so that many are taken at a turn.
pub fn count_not_in_label(name: &[u8]) -> u8
    requires { length name.now ≤ 255 }
    ensures { result ≡ count.count_not_in_label name.now }
{
    name.iter().map(|b| not_in_label(*b)).sum()
}

// Is this a proper name in canonical form, and nothing after it? Only the lengths are walked over: the labels are right if every byte that no label has is a length.
pub fn is_canonical(name: &[u8]) -> bool
    ensures { Decides result (spec.Proper name.now × (spec.canonical name.now ≡ name.now)) }
{
    let n = name.len();
    if LONGEST < n {
        return false;
    }
    // the root, or nothing at all
    if n < 2 {
        return false;
    }
    // the bytes that no label has, but for the lengths passed
    let mut left = count_not_in_label(name);
    let mut i = 0;
    while i < n {
        let b = name[i];
        if b == 0 {
            return (i + 1 == n) & (left == 1);
        }
        if LONGEST_LABEL < b {
            return false;
        }
        left -= not_in_label(b);
        i += b as usize + 1;
    }
    false
}

// Writes the canonical form of a name into `to`, from index `at` on.
pub fn put_canonical(to: &mut [u8], at: usize, name: &[u8])
    requires { at + length name.now ≤ length to.old }
    ensures { to.new ≡ overlay to.old at (spec.canonical name.now) }
{
    for (i, b) in name.iter().enumerate() {
        to[at + i] = lower(*b);
    }
}

// Are the bytes of the chunk from `at` on the same, once `name` is in canonical form? With no way out before its end, so that it is taken at once.
fn matches_chunk(name: &[u8], held: &[u8], at: usize) -> bool
    requires { (at + 16 ≤ length name.now) × (at + 16 ≤ length held.now) }
    ensures { Decides result (count.Agree name.now held.now at (at + 16)) }
{
    let mut same = true;
    for i in 0..CHUNK {
        same &= lower(name[at + i]) == held[at + i];
    }
    same
}

// Is `held`, which is in canonical form, the same name as `name`, which may be in any case? A chunk at a time, as far as there are chunks.
pub fn matches(name: &[u8], held: &[u8]) -> bool
    ensures { Decides result (spec.canonical name.now ≡ held.now) }
{
    if name.len() != held.len() {
        return false;
    }
    let mut at = 0;
    while CHUNK <= name.len() - at {
        if !matches_chunk(name, held, at) {
            return false;
        }
        at += CHUNK;
    }
    // by index: an iterator over both is 14 to 24% slower
    for i in at..name.len() {
        if lower(name[i]) != held[i] {
            return false;
        }
    }
    true
}

// Are the labels of `zone`, which may be in any case, the last ones of `name`, which is in canonical form? The lengths before them are walked over: a
// hyphen and the digits are lengths too, so that the last bytes alone do not tell.
pub fn is_within(name: &[u8], zone: &[u8]) -> bool
    requires proper { spec.Proper name.now }
    requires in_bounds { 1 ≤ length zone.now }
    ensures { Decides result (spec.Within name.now (spec.canonical zone.now)) }
{
    let mut at = 0;
    while zone.len() < name.len() - at {
        at += name[at] as usize + 1;
    }
    matches(zone, &name[at..])
}
