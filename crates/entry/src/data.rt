// The data of a record in an entry's last words.
ghost use Rattle.std.specs.Prelude.{◌≡◌, ◌≤◌, length};
ghost use Rattle.base.specs.Bytes.{zero_filled};
ghost use Rattle.grammar.specs.DhcidReader.{dhcid_of};
ghost use Rattle.entry.specs.Parts as spec;

use crate::{TYPE_A, TYPE_DHCID};
use address::{read_a, read_aaaa};
use base::slice::put;
use dhcid_text::DhcidWords;
use words::{Next, next_word};

// Data that were read, if they were, with zeros after them; and how far the entry was read.
#[derive(Drop)]
pub(crate) struct Data {
    pub rdata: Option<[u8; 35]>,
    pub at: usize,
    pub inside: bool,
}

// The bytes, and zeros after them.
fn zero_filled(bytes: &[u8]) -> [u8; 35]
    requires { length bytes.now ≤ 35 }
    ensures { result ≡ zero_filled bytes.now }
{
    let mut filled = [0u8; 35];
    put(&mut filled, 0, bytes);
    filled
}

// Data of N bytes, if they were read, with zeros after them.
fn filled<const N: usize>(bytes: Option<[u8; N]>) -> Option<[u8; 35]>
    requires { N ≤ 35 }
    ensures { result ≡ spec.filled_out bytes.entry }
{
    match bytes {
        Some(bytes) => Some(zero_filled(&bytes)),
        None => None,
    }
}

// An address, which is the next word: an A record's, or else an AAAA record's.
fn address(text: &[u8], at: usize, inside: bool, rtype: u8) -> Data
    requires { at ≤ length text.now }
    ensures { spec.DataAt (spec.address_for rtype) text.now at inside (spec.data_of result) }
{
    match next_word(text, at, inside) {
        Next::Word {
            start,
            end,
            inside: after,
        } => {
            let word = &text[start..end];
            if rtype == TYPE_A {
                return Data {
                    rdata: filled(read_a(word)),
                    at: end,
                    inside: after,
                };
            }
            Data {
                rdata: filled(read_aaaa(word)),
                at: end,
                inside: after,
            }
        }
        _ => Data {
            rdata: None,
            at,
            inside,
        },
    }
}

// A DHCID, in all the words that are left.
fn dhcid(text: &[u8], at: usize, inside: bool) -> Data
    requires { at ≤ length text.now }
    ensures { spec.DataAt dhcid_of text.now at inside (spec.data_of result) }
{
    let mut words = DhcidWords::begin();
    let mut i = at;
    let mut within = inside;
    loop {
        match next_word(text, i, within) {
            Next::Word {
                start,
                end,
                inside: after,
            } => {
                let more = words.word(&text[start..end]);
                words = more;
                i = end;
                within = after;
            }
            _ => {
                return Data {
                    rdata: filled(words.finish()),
                    at: i,
                    inside: within,
                };
            }
        }
    }
}

// The data of a record of the type `rtype`, whose words begin at `at`.
pub(crate) fn read(text: &[u8], at: usize, inside: bool, rtype: u8) -> Data
    requires { at ≤ length text.now }
    ensures { spec.DataAt (spec.rdata_for rtype) text.now at inside (spec.data_of result) }
{
    if rtype == TYPE_DHCID {
        return dhcid(text, at, inside);
    }
    address(text, at, inside, rtype)
}
