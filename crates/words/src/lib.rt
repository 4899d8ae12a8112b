// The words of a listing's entry, one at a time, and how the entry ends. A loop passes one piece at each turn, and the runs of a word and of a
// comment are loops of their own: so each byte is looked at twice at most for its own piece. Since a word's run is taken in chunks of 32 bytes, it is
// looked at once more for each word that ends in the 31 bytes before it, which are sixteen at most.
#![tactic(auto)]

ghost use Rattle.std.specs.Prelude.{◌≡◌, ◌≤◌, ◌<◌, false, cond, length, get_or};
ghost use Rattle.grammar.specs.Listing.{kind_of, is_word_byte, is_comment_byte};
ghost use Rattle.words.specs.NextIs.{kind_meant, PassTo, RunTo, NextIs};

// What a byte is where no comment is open.
#[derive(Drop)]
enum ByteKind {
    Blank,
    LineEnd,
    Opening,
    Closing,
    Semicolon,
    Word,
    NotAllowed,
}

fn kind_of(b: u8) -> ByteKind
    ensures { kind_meant result ≡ kind_of b }
{
    match b {
        b'\t' | b' ' => ByteKind::Blank,
        b'\n' => ByteKind::LineEnd,
        b'(' => ByteKind::Opening,
        b')' => ByteKind::Closing,
        b';' => ByteKind::Semicolon,
        33..=126 => ByteKind::Word,
        _ => ByteKind::NotAllowed,
    }
}

// By comparisons, which are taken for many bytes at once.
pub fn is_word_byte(b: u8) -> bool
    ensures { result ≡ is_word_byte b }
{
    (33 <= b) & (b <= 126) & (b != b'(') & (b != b')') & (b != b';')
}

// May a comment hold it?
fn is_comment_byte(b: u8) -> bool
    ensures { result ≡ is_comment_byte b }
{
    ((32 <= b) & (b <= 126)) | (b == b'\t')
}

// How many bytes of a word are looked at together.
const CHUNK: u8 = 32;

// The index, but past the chunk where the byte is a word's.
fn stop_at(b: u8, i: u8) -> u8
    ensures { result ≡ cond (is_word_byte b) 32 i }
{
    if is_word_byte(b) { CHUNK } else { i }
}

// How many bytes of a chunk are a word's, up to the first that is not: the least index of such a byte, with no way out before the last, so that all are
// taken at once and where a word ends need not be guessed.
fn word_lead(chunk: &[u8]) -> u8
    requires { length chunk.now ≡ 32 }
    ensures { (result ≤ 32) × PassTo is_word_byte chunk.now 0 result × (result < 32 → is_word_byte (get_or chunk.now result 0) ≡ false) }
{
    let mut first = CHUNK;
    for i in 0..CHUNK {
        first = first.min(stop_at(chunk[i as usize], i));
    }
    first
}

// Where the longest run of word bytes from `at` on ends.
fn word_end(text: &[u8], at: usize) -> usize
    requires { at ≤ length text.now }
    ensures { RunTo is_word_byte text.now at result }
{
    let mut end = at;
    for chunk in text[at..].chunks_exact(CHUNK as usize) {
        let lead = word_lead(chunk);
        end += lead as usize;
        if lead < CHUNK {
            return end;
        }
    }
    match text[end..].iter().position(|b| !is_word_byte(*b)) {
        Some(left) => end + left,
        None => text.len(),
    }
}

// Where the longest run of bytes of a comment from `at` on ends.
fn comment_end(text: &[u8], at: usize) -> usize
    requires { at ≤ length text.now }
    ensures { RunTo is_comment_byte text.now at result }
{
    match text[at..].iter().position(|b| !is_comment_byte(*b)) {
        Some(length) => at + length,
        None => text.len(),
    }
}

// What comes next in an entry.
#[derive(Drop)]
pub enum Next {
    // a word, the bytes from `start` up to `end`, and whether the text goes on inside parentheses
    Word {
        start: usize,
        end: usize,
        inside: bool,
    },
    // no word: the entry ends at a line end, and this offset is the one after it
    Line(usize),
    // no word: the entry ends with the text
    End,
    // no word, and a fault of the entry's shape
    Fault,
}

// What comes next from `at` on, where no comment is open, outside or inside parentheses.
pub fn next_word(text: &[u8], at: usize, inside: bool) -> Next
    requires { at ≤ length text.now }
    ensures { NextIs text.now at inside result }
{
    let mut i = at;
    let mut within = inside;
    while i < text.len() {
        match kind_of(text[i]) {
            ByteKind::Blank => i += 1,
            ByteKind::LineEnd => {
                if !within {
                    return Next::Line(i + 1);
                }
                i += 1;
            }
            ByteKind::Opening => {
                if within {
                    return Next::Fault;
                }
                within = true;
                i += 1;
            }
            ByteKind::Closing => {
                if !within {
                    return Next::Fault;
                }
                within = false;
                i += 1;
            }
            ByteKind::Semicolon => i = comment_end(text, i + 1),
            ByteKind::Word => {
                let end = word_end(text, i);
                return Next::Word {
                    start: i,
                    end,
                    inside: within,
                };
            }
            ByteKind::NotAllowed => return Next::Fault,
        }
    }
    if !within {
        return Next::End;
    }
    Next::Fault
}
