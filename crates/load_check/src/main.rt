// Says what a load of a listing into a table would answer. Standard input is the listing; standard output gets `names N`, the number of its names, where it
// would be loaded, or the refusal, `refused NUMBER at OFFSET`. After a 35 a second line has the name, the type and the offsets of the two records that are
// alike, and after a 32 the number of names. Where input or output fails, a line on the error stream says so and nothing more is printed.
#![tactic(auto)]

ghost use Rattle.std.specs.Prelude.{◌≡◌, List, ◌+◌, ◌≤◌, length};
ghost use Rattle.grammar.specs.Listing.{ResourceRecord};
ghost use Rattle.listing.specs.Giving.{end, Gives};
ghost use Rattle.records.specs.Gathered.{owners};
ghost use Rattle.writer.specs.Line.{Writable, Holds};
ghost use Rattle.load_check.specs.Loading as spec;
ghost use Rattle.load_check.specs.Walking as walk;

use base::Answer;
use base::refusal::{LISTING_LONG, RECORD_REPEATED, TABLE_FULL};
use base::slice::put;
use entry::{Record, TYPE_A, TYPE_AAAA, no_record, read_entry};
use listing_io::{INPUT_LIMIT, Input, complain, print, print_number, print_refusal, read_input};
use name_text::put_text;
use octets::same;
use table_fault::judge;

// In the place of a record type: records of every type are sought.
const ANY_TYPE: u8 = 0;

// The longest owner and type: 254 bytes of name, a blank, 5 bytes of type.
const HEAD_ROOM: usize = 260;

// What a load of the listing into a table answers.
fn verdict(text: &[u8]) -> Answer
    ensures { spec.LoadAnswers text.now result }
{
    let judged = judge(text);
    judged.answer
}

// Has the place this owner, and this type or any?
fn is_like(place: Record, owner: &[u8], rtype: u8) -> bool
    ensures { result ≡ walk.is_like place owner.now rtype }
{
    let name: &[u8] = &place.owner;
    let n = place.owner_len as usize;
    same(&name[..n], owner) & ((rtype == ANY_TYPE) | (place.rtype == rtype))
}

// Where the first record before the offset `end` stands that has this owner, and this type or any; `end` if none has.
fn earlier(text: &[u8], end: usize, owner: &[u8], rtype: u8) -> usize
    requires { end ≤ length text.now }
    ensures { (es : List spec.Entered) → walk.Walked text.now end 0 es → 1 ≤ length owner.now → walk.FirstLike owner.now rtype end es result }
{
    let mut at: usize = 0;
    while at < end {
        let entry = read_entry(text, at);
        let place = entry.record;
        if is_like(place, owner, rtype) {
            return at;
        }
        at = entry.next;
    }
    end
}

// How many names the entry at `at` adds to those before it: 1 where its record is the first one of its owner, else 0.
fn names_added(text: &[u8], at: usize, place: Record) -> usize
    requires { at ≤ length text.now }
    ensures { walk.AddsNames text.now at place result }
{
    let owner: &[u8] = &place.owner;
    let n = place.owner_len as usize;
    if n == 0 {
        return 0;
    }
    if earlier(text, at, &owner[..n], ANY_TYPE) < at {
        return 0;
    }
    1
}

// How many names a listing has that is right.
fn count_names(text: &[u8]) -> usize
    ensures { (rs : List ResourceRecord) → Gives text.now 0 rs end → result ≡ length (owners rs) }
{
    let mut count: usize = 0;
    let mut at: usize = 0;
    while at < text.len() {
        let entry = read_entry(text, at);
        let place = entry.record;
        count += names_added(text, at, place);
        at = entry.next;
    }
    count
}

// Where the first record stands that has the owner and the type of the entry's at `at`; `at` where there is none, or no record at `at`.
fn first_alike(text: &[u8], at: usize, place: Record) -> usize
    requires { at ≤ length text.now }
    ensures { walk.FirstAlike text.now at place result }
{
    let owner: &[u8] = &place.owner;
    let n = place.owner_len as usize;
    if n == 0 {
        return at;
    }
    earlier(text, at, &owner[..n], place.rtype)
}

// Two records of one owner and one type, by the offsets of their entries.
#[derive(Drop)]
struct Repeat {
    first: usize,
    second: usize,
    // the second one
    record: Record,
}

// The first record of a listing that has an earlier one of its owner and type, with that one.
fn first_repeat(text: &[u8]) -> Repeat
    requires { spec.Repeated text.now }
    ensures { spec.FirstRepeat text.now result }
{
    let mut at: usize = 0;
    while at < text.len() {
        let entry = read_entry(text, at);
        let place = entry.record;
        let first = first_alike(text, at, place);
        if first < at {
            return Repeat {
                first: first,
                second: at,
                record: place,
            };
        }
        at = entry.next;
    }
    // never, since two records are alike
    Repeat {
        first: at,
        second: at,
        record: no_record(),
    }
}

// Puts a blank and the type into `out`, from index `at` on, and answers where it ends.
fn put_type(out: &mut [u8], at: usize, rtype: u8) -> usize
    requires { at + walk.longest_type ≤ length out.old }
    ensures { walk.Put (walk.type_word rtype) at out.old out.new result }
{
    match rtype {
        TYPE_A => {
            put(out, at, b" A");
            at + 2
        }
        TYPE_AAAA => {
            put(out, at, b" AAAA");
            at + 5
        }
        _ => {
            put(out, at, b" DHCID");
            at + 6
        }
    }
}

// Puts the owner and the type of a record into `out`, and answers how many bytes that is.
fn put_head(out: &mut [u8], place: Record) -> usize
    requires writable { Writable place }
    requires longest_head_in_bounds { spec.longest_head ≤ length out.old }
    ensures { (rr : ResourceRecord) → Holds place rr → walk.Put (spec.heading rr) 0 out.old out.new result }
{
    let owner: &[u8] = &place.owner;
    let n = place.owner_len as usize;
    put_text(out, 0, &owner[..n]);
    // a name has one byte less in text
    put_type(out, n - 1, place.rtype)
}

// Prints the number of names of a listing that is right. False where the output failed.
fn print_names(text: &[u8]) -> bool
    requires { spec.Right text.now }
{
    print(b"names ") && print_number(count_names(text) as u64) && print(b"\n")
}

// Prints which two records are alike: name, type and the offsets of their entries.
fn print_repeat(text: &[u8]) -> bool
    requires { spec.Repeated text.now }
{
    let repeat = first_repeat(text);
    let place = repeat.record;
    let mut out = [0u8; HEAD_ROOM];
    let n = put_head(&mut out, place);
    print(&out[..n])
        && print(b" at ")
        && print_number(repeat.first as u64)
        && print(b" and ")
        && print_number(repeat.second as u64)
        && print(b"\n")
}

// Prints what else is to be said of a refusal.
fn print_reason(text: &[u8], number: u32) -> bool
    requires { spec.Explains text.now number }
{
    match number {
        RECORD_REPEATED => print_repeat(text),
        TABLE_FULL => print_names(text),
        _ => true,
    }
}

// Prints what a load of a listing would answer. False where the output failed.
fn print_answer(text: &[u8]) -> bool {
    if text.len() == INPUT_LIMIT {
        return print_refusal(LISTING_LONG, 0);
    }
    match verdict(text) {
        Answer::Accepted(_) => print_names(text),
        Answer::Refused { number, offset } => {
            print_refusal(number, offset) && print_reason(text, number)
        }
    }
}

fn main(rt: HostRuntime) {
    // The listing is judged whole before anything is printed, so all of it stands in memory; and there is no heap.
    let mut text = [0u8; INPUT_LIMIT];
    let mut input = rt.stdin();
    match read_input(&mut input, &mut text) {
        Input::Failed => complain(b"load_check: standard input could not be read\n"),
        Input::Read(n) => {
            if !print_answer(&text[..n]) {
                complain(b"load_check: standard output could not be written\n");
            }
        }
    }
}
