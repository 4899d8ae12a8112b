// One entry of a listing as a whole: no record, a record, or the number of its first fault; and where the next entry begins.
#![tactic(auto)]

mod data;
mod head;

ghost use Rattle.std.specs.Prelude.{◌≡◌, false, ◌≤◌, length, drop};
ghost use Rattle.grammar.specs.Scan.{plain, scan};
ghost use Rattle.words.specs.NextIs.{depth_of, WordAt};
ghost use Rattle.entry.specs.Held.{empty_record};
ghost use Rattle.entry.specs.EntryAt as spec;

use base::refusal::{ENTRY_DATA, ENTRY_OWNER, ENTRY_SHAPE, ENTRY_TYPE};
use name_text::from_text;
use words::{Next, is_word_byte, next_word};

// The record types, by their numbers (RFC 1035, 3596 and 4701); 0 is none.
pub const TYPE_A: u8 = 1;

pub const TYPE_AAAA: u8 = 28;

pub const TYPE_DHCID: u8 = 49;

pub(crate) const NO_TYPE: u8 = 0;

// A record, by value: 292 bytes. In a row of records it is what document 01 calls a place (docs/RULES.md, 6.5).
#[derive(Clone, Copy)]
pub struct Record {
    // the owner in canonical wire form, and zeros after it
    pub owner: [u8; 255],
    pub owner_len: u8,
    pub rtype: u8,
    // the data, 4, 16 or 35 bytes, and zeros after them
    pub rdata: [u8; 35],
}

// What an entry's words come to.
#[derive(Clone, Copy)]
pub enum Content {
    Nothing,
    Record,
    Fault(u32),
}

#[derive(Clone, Copy)]
pub struct Entry {
    pub content: Content,
    // all zeros where the content is no record
    pub record: Record,
    // where the next entry begins; the text's length after the last entry and after a faulty one
    pub next: usize,
}

// The bytes where there is no record: all zeros.
pub fn no_record() -> Record
    ensures { result ≡ empty_record }
{
    Record {
        owner: [0u8; 255],
        owner_len: 0,
        rtype: NO_TYPE,
        rdata: [0u8; 35],
    }
}

// Has the rest of an entry, from `at` on, a right shape?
fn shape_is_right(text: &[u8], at: usize, inside: bool) -> bool
    requires { at ≤ length text.now }
    ensures { result ≡ spec.not_at_fault (scan plain (depth_of inside) (drop at text.now)).ending }
{
    let mut i = at;
    let mut within = inside;
    loop {
        match next_word(text, i, within) {
            Next::Word {
                end,
                inside: after,
                ..
            } => {
                i = end;
                within = after;
            }
            Next::Line(_) => return true,
            Next::End => return true,
            Next::Fault => return false,
        }
    }
}

fn nothing(next: usize) -> Entry
    ensures { result ≡ spec.nothing_before next }
{
    Entry {
        content: Content::Nothing,
        record: no_record(),
        next: next,
    }
}

fn fault(number: u32, next: usize) -> Entry
    ensures { result ≡ spec.fault_before number next }
{
    Entry {
        content: Content::Fault(number),
        record: no_record(),
        next: next,
    }
}

// The entry has the fault `number`, or one of its shape from `at` on, which comes first. Always in line: beside a call of it the compiler copies whole entries, and a
// listing of short records takes up to 1.7 times as long.
#[inline(always)]
fn faulty(text: &[u8], at: usize, inside: bool, number: u32) -> Entry
    requires { at ≤ length text.now }
    ensures { result ≡ spec.faulty_from text.now at inside number }
{
    if !shape_is_right(text, at, inside) {
        return fault(ENTRY_SHAPE, text.len());
    }
    fault(number, text.len())
}

// The entry at `at`, whose first word stands from `start` up to `end`.
fn with_words(text: &[u8], at: usize, start: usize, end: usize, inside: bool) -> Entry
    requires { WordAt text.now at false start end inside }
    ensures { result ≡ spec.entry_at text.now at }
{
    let Some(owner) = from_text(&text[start..end]) else {
        return faulty(text, end, inside, ENTRY_OWNER);
    };
    if !is_word_byte(text[at]) {
        return faulty(text, end, inside, ENTRY_OWNER);
    }
    let head = head::read(text, end, inside);
    if head.rtype == NO_TYPE {
        return faulty(text, head.at, head.inside, ENTRY_TYPE);
    }
    let data = data::read(text, head.at, head.inside, head.rtype);
    let Some(rdata) = data.rdata else {
        return faulty(text, data.at, data.inside, ENTRY_DATA);
    };
    let bytes = owner.bytes;
    let record = Record {
        owner: bytes,
        owner_len: owner.len,
        rtype: head.rtype,
        rdata,
    };
    match next_word(text, data.at, data.inside) {
        Next::Word {
            end: after,
            inside: within,
            ..
        } => faulty(text, after, within, ENTRY_DATA),
        Next::Fault => fault(ENTRY_SHAPE, text.len()),
        Next::Line(following) => Entry {
            content: Content::Record,
            record: record,
            next: following,
        },
        Next::End => Entry {
            content: Content::Record,
            record: record,
            next: text.len(),
        },
    }
}

// The entry that begins at `at`.
pub fn read_entry(text: &[u8], at: usize) -> Entry
    requires { at ≤ length text.now }
    ensures { result ≡ spec.entry_at text.now at }
{
    match next_word(text, at, false) {
        Next::Word { start, end, inside } => with_words(text, at, start, end, inside),
        Next::Line(next) => nothing(next),
        Next::End => nothing(text.len()),
        Next::Fault => fault(ENTRY_SHAPE, text.len()),
    }
}
