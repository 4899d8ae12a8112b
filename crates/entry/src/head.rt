// What follows the owner of an entry: an optional class, and the type.
ghost use Rattle.std.specs.Prelude.{◌≡◌, [], ◌∷◌, ◌≤◌, length};
ghost use Rattle.base.specs.Logic.{Decides};
ghost use Rattle.name.specs.Name.{canonical};
ghost use Rattle.grammar.specs.Content.{type_of, typed, head_of};
ghost use Rattle.entry.specs.Parts as spec;

use crate::{NO_TYPE, TYPE_A, TYPE_AAAA, TYPE_DHCID};
use name::byte::lower;
use words::{Next, next_word};

// A record type, `NO_TYPE` where there is none, and how far the entry was read.
#[derive(Drop)]
pub(crate) struct Head {
    pub rtype: u8,
    pub at: usize,
    pub inside: bool,
}

// The class and the types, in any case, byte by byte: a call for words of any length costs more than so short a word.
fn is_in(word: &[u8]) -> bool
    ensures { Decides result (canonical word.now ≡ 105 ∷ 110 ∷ []) }
{
    if word.len() != 2 {
        return false;
    }
    (lower(word[0]) == b'i') & (lower(word[1]) == b'n')
}

fn is_a(word: &[u8]) -> bool
    ensures { Decides result (canonical word.now ≡ 97 ∷ []) }
{
    if word.len() != 1 {
        return false;
    }
    lower(word[0]) == b'a'
}

fn is_aaaa(word: &[u8]) -> bool
    ensures { Decides result (canonical word.now ≡ 97 ∷ 97 ∷ 97 ∷ 97 ∷ []) }
{
    if word.len() != 4 {
        return false;
    }
    (lower(word[0]) == b'a')
        & (lower(word[1]) == b'a')
        & (lower(word[2]) == b'a')
        & (lower(word[3]) == b'a')
}

fn is_dhcid(word: &[u8]) -> bool
    ensures { Decides result (canonical word.now ≡ 100 ∷ 104 ∷ 99 ∷ 105 ∷ 100 ∷ []) }
{
    if word.len() != 5 {
        return false;
    }
    (lower(word[0]) == b'd')
        & (lower(word[1]) == b'h')
        & (lower(word[2]) == b'c')
        & (lower(word[3]) == b'i')
        & (lower(word[4]) == b'd')
}

// The type that a word names.
fn type_of(word: &[u8]) -> u8
    ensures { result ≡ spec.type_number_if (type_of word.now) }
{
    if is_a(word) {
        return TYPE_A;
    }
    if is_aaaa(word) {
        return TYPE_AAAA;
    }
    if is_dhcid(word) {
        return TYPE_DHCID;
    }
    NO_TYPE
}

// The type that the next word names.
fn next_type(text: &[u8], at: usize, inside: bool) -> Head
    requires { at ≤ length text.now }
    ensures { spec.HeadAt typed text.now at inside result }
{
    match next_word(text, at, inside) {
        Next::Word {
            start,
            end,
            inside: after,
        } => Head {
            rtype: type_of(&text[start..end]),
            at: end,
            inside: after,
        },
        _ => Head {
            rtype: NO_TYPE,
            at: at,
            inside: inside,
        },
    }
}

// The head of the entry whose owner ends at `at`.
pub(crate) fn read(text: &[u8], at: usize, inside: bool) -> Head
    requires { at ≤ length text.now }
    ensures { spec.HeadAt head_of text.now at inside result }
{
    match next_word(text, at, inside) {
        Next::Word {
            start,
            end,
            inside: after,
        } => {
            let word = &text[start..end];
            if is_in(word) {
                return next_type(text, end, after);
            }
            Head {
                rtype: type_of(word),
                at: end,
                inside: after,
            }
        }
        _ => Head {
            rtype: NO_TYPE,
            at: at,
            inside: inside,
        },
    }
}
