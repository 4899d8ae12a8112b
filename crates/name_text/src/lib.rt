// Names in text: each label followed by a dot.
#![tactic(auto)]

ghost use Rattle.std.specs.Prelude.{◌≡◌, ◌⊎◌, ◌+◌, ◌-◌, ◌≤◌, ◌<◌, length, get_or, drop};
ghost use Rattle.base.specs.Bytes.{overlay};
ghost use Rattle.base.specs.Logic.{Decides};
ghost use Rattle.name.specs.Promise as spec;
ghost use Rattle.name_text.specs.Calls as calls;

use base::Answer;
use base::refusal::{NO_PROPER_NAME, OUTPUT_SHORT};
use base::slice::put;
use name::WireName;
use name::wire::{CHUNK, LONGEST_LABEL, count_not_in_label, is_proper, put_canonical};

// The longest name in text: one byte less than in wire form.
const LONGEST_TEXT: usize = 254;

const DOT: u8 = 46;

// From so many bytes on it pays to look at a chunk first.
const FAR: usize = 64;

// Is there no dot in the chunk from `at` on? With no way out before its end, so that it is taken at once.
fn is_dotless(word: &[u8], at: usize) -> bool
    requires { at + 16 ≤ length word.now }
    ensures { Decides result (16 ≤ spec.lead (drop at word.now)) }
{
    let mut dotless = true;
    let mut i: usize = 0;
    while i < CHUNK {
        dotless = dotless & (word[at + i] != DOT);
        i += 1;
    }
    dotless
}

// The index from `at` on that chunks without a dot lead to.
fn pass_chunks(word: &[u8], at: usize) -> usize
    requires { at ≤ length word.now }
    ensures { (at ≤ result) × (result ≤ at + spec.lead (drop at word.now)) }
{
    let mut i = at;
    while FAR <= word.len() - i {
        if !is_dotless(word, i) {
            return i;
        }
        i += CHUNK;
    }
    i
}

// The index of the first dot from `at` on, in a word whose last byte is one.
fn next_dot(word: &[u8], at: usize) -> usize
    requires { (at < length word.now) × (get_or word.now (length word.now - 1) 0 ≡ 46) }
    ensures { result ≡ at + spec.lead (drop at word.now) }
{
    let mut i = pass_chunks(word, at);
    while word[i] != DOT {
        i += 1;
    }
    i
}

// The name that a word of text is, in canonical wire form; or none. All bytes are taken over, one further on, and each length then stands where in
// text the dot before the label does; the bytes are right if every one that no label has is a dot.
pub fn from_text(word: &[u8]) -> Option<WireName>
    ensures { spec.Reads word.now result ⊎ spec.ReadsNone word.now result }
{
    let n = word.len();
    if n == 0 {
        return None;
    }
    if LONGEST_TEXT < n {
        return None;
    }
    if word[n - 1] != DOT {
        return None;
    }
    let mut bytes = [0u8; 255];
    put_canonical(&mut bytes, 1, word);
    // the bytes that no label has, but for the dots passed
    let mut left = count_not_in_label(&bytes[1..n + 1]);
    let mut i: usize = 0;
    while i < n {
        let end = next_dot(word, i);
        let size = (end - i) as u8;
        if size == 0 {
            return None;
        }
        if LONGEST_LABEL < size {
            return None;
        }
        bytes[i] = size;
        left -= 1;
        i = end + 1;
    }
    if left != 0 {
        return None;
    }
    // in the place of the last dot
    bytes[n] = 0;
    Some(WireName {
        bytes,
        len: (n + 1) as u8,
    })
}

// Writes the text of a name into `to`, from index `at` on: one byte less than the name has. All its bytes but the first, and then a dot in the place of
// each length.
pub fn put_text(to: &mut [u8], at: usize, name: &[u8])
    requires { at + length name.now ≤ length to.old + 1 }
    ensures { to.new ≡ overlay to.old at (spec.text_of name.now) }
{
    let n = name.len();
    if n == 0 {
        return;
    }
    put(to, at, &name[1..]);
    let mut i = name[0] as usize;
    while i < n - 1 {
        to[at + i] = DOT;
        i += name[i + 1] as usize + 1;
    }
}

// Reads a name in text into `out`, in canonical wire form, and answers how many bytes it has. Refusals: 9, 13.
pub fn read(text: &[u8], out: &mut [u8]) -> Answer
    ensures { calls.ReadsText text.now out.old result out.new }
{
    let Some(name) = from_text(text) else {
        return Answer::refused(NO_PROPER_NAME);
    };
    let bytes = name.as_slice();
    if out.len() < bytes.len() {
        return Answer::refused(OUTPUT_SHORT);
    }
    put(out, 0, bytes);
    Answer::Accepted(bytes.len() as u32)
}

// Writes a name in wire form into `out`, as text in lower case, and answers how many bytes that has. Refusals: 9, 13.
pub fn write(name: &[u8], out: &mut [u8]) -> Answer
    ensures { calls.WritesText name.now out.old result out.new }
{
    if !is_proper(name) {
        return Answer::refused(NO_PROPER_NAME);
    }
    let n = name.len();
    if out.len() < n - 1 {
        return Answer::refused(OUTPUT_SHORT);
    }
    let mut bytes = [0u8; 255];
    put_canonical(&mut bytes, 0, name);
    put_text(out, 0, &bytes[..n]);
    Answer::Accepted((n - 1) as u32)
}
