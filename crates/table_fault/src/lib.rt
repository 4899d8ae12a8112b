// Is a listing right, and do its records make a table? No record may stand twice, by owner and type (refusal 35), and there may be no more names than the table has slots
// (32). One sweep reads every entry and keeps the first 64 names that it meets, by the offset of their first entry, where the owner stands in text, and which types each
// has: 576 bytes, and no copy of a name. What it could not keep is swept again from the first such record on, so that n names take n / 64 sweeps.
#![tactic(auto)]

ghost use Rattle.std.specs.Prelude.{◌≡◌, List, ℕ, ◌+◌, ◌*◌, ◌%◌, ◌^◌, ◌≤◌, ◌<◌, length, drop, set};
ghost use Rattle.base.specs.Logic.{Decides};
ghost use Rattle.grammar.specs.Listing.{ResourceRecord};
ghost use Rattle.listing.specs.Giving.{Last, end, Gives};
ghost use Rattle.listing.specs.Reading.{limit};
ghost use Rattle.name.specs.Name.{Proper, canonical};
ghost use Rattle.name.specs.Promise.{text_of};
ghost use Rattle.slots.specs.Sizes.{most_names, most_records};
ghost use Rattle.table_fault.specs.Judging.{IndexOf, without_slots, Judges};
ghost use Rattle.table_fault.specs.Sweeping as spec;

use base::Answer;
use base::refusal::{LISTING_LONG, RECORD_REPEATED, TABLE_FULL};
use entry::{Content, TYPE_A, TYPE_AAAA, read_entry};
use grammar::LISTING_LIMIT;
use name::wire::matches;
use slot_row::{RECORDS, SLOTS};

// How many bytes of a name go into its number at most.
const MARKED: usize = 32;

const DOT: u8 = 46;

// The number of some bytes with one byte more.
fn hashed(h: u32, b: u8) -> u32
    ensures { result ≡ (h * 31 + b) % 2 ^ 32 }
{
    ((h as u64 * 31 + b as u64) % 4294967296) as u32
}

fn hash(bytes: &[u8]) -> u32
    ensures { result ≡ spec.hashed 0 bytes.now }
{
    let mut h: u32 = 0;
    let mut i: usize = 0;
    while i < bytes.len() {
        h = hashed(h, bytes[i]);
        i += 1;
    }
    h
}

fn tagged(h: u32, len: usize) -> u32
    ensures { result ≡ spec.tagged h len }
{
    h % 16777216 * 256 + (len % 256) as u32
}

// A number for a name, from its length and its first bytes. Names of other lengths differ in it, and most others do.
fn mark(name: &[u8]) -> u32
    ensures { result ≡ spec.mark name.now }
{
    if MARKED < name.len() {
        return tagged(hash(&name[..MARKED]), name.len());
    }
    tagged(hash(name), name.len())
}

// The flag of a record type, as in a slot.
fn type_bit(rtype: u8) -> u8
    ensures { result ≡ spec.type_bit rtype }
{
    match rtype {
        TYPE_A => 1,
        TYPE_AAAA => 2,
        _ => 4,
    }
}

// Is the word, in any case, the text of the name? Label by label: a label stands in text one byte before its place in wire form, and its dot where the next length stands.
fn is_text_of(word: &[u8], name: &[u8]) -> bool
    requires { length word.now + 1 ≡ length name.now }
    ensures { Decides result (canonical word.now ≡ text_of name.now) }
{
    let mut at: usize = 0;
    while at < word.len() {
        let end = at + name[at] as usize;
        if word.len() <= end {
            return matches(&word[at..], &name[at + 1..]);
        }
        if word[end] != DOT {
            return false;
        }
        if !matches(&word[at..end], &name[at + 1..end + 1]) {
            return false;
        }
        at = end + 1;
    }
    true
}

// Is the name that stands at `at`, of the same length, this one?
fn is_owner(text: &[u8], at: usize, name: &[u8]) -> bool
    requires { (Proper name.now) × (at + length name.now ≤ length text.now + 1) }
    ensures { (n : List ℕ) → spec.BeginsWith (drop at text.now) n → length n ≡ length name.now → Decides result (n ≡ name.now) }
{
    let end = at + (name.len() - 1);
    is_text_of(&text[at..end], name)
}

// Where a name stands among those that are kept; how many they are, if it does not.
fn index_of(text: &[u8], starts: &[u32], marks: &[u32], used: usize, m: u32, name: &[u8]) -> usize
    requires { (used ≤ length starts.now) × (used ≤ length marks.now) × (spec.SomeMarked text.now starts.now marks.now used) × (Proper name.now) × (m ≡ spec.mark name.now) }
    ensures { (ns : List (List ℕ)) → used ≡ length ns → spec.AllMarked text.now starts.now marks.now ns → IndexOf ns name.now result }
{
    let mut i: usize = 0;
    while i < used {
        if marks[i] == m {
            if is_owner(text, starts[i] as usize, name) {
                return i;
            }
        }
        i += 1;
    }
    i
}

// What an entry is: faulty, with the number of its fault; a record, with where its name stands among those that are kept; or neither.
#[derive(Drop)]
struct Swept {
    next: usize,
    index: usize,
    mark: u32,
    number: u32,
    bit: u8,
    found: bool,
    faulty: bool,
}

// What a sweep came to: a faulty entry; two records alike, and where it stopped; none alike and all names kept; or, of the names that it kept, none alike, and the first
// record of another name at an offset.
#[derive(Drop)]
enum SweepOutcome {
    Fault { number: u32, offset: u32 },
    Repeat(usize),
    Whole,
    Beyond(usize),
}

// The entry that begins at `at`.
fn look(text: &[u8], at: usize, starts: &[u32], marks: &[u32], used: usize) -> Swept
    requires { (length text.now ≤ limit) × (at < length text.now) × (used ≤ length starts.now) × (used ≤ length marks.now) × (spec.SomeMarked text.now starts.now marks.now used) }
    ensures { (ns : List (List ℕ)) → used ≡ length ns → spec.AllMarked text.now starts.now marks.now ns → spec.SweptIs text.now at ns result }
{
    let entry = read_entry(text, at);
    let record = entry.record;
    let next = entry.next;
    let content = entry.content;
    match content {
        Content::Record => {
            let owner: &[u8] = &record.owner;
            let len = record.owner_len as usize;
            let m = mark(&owner[..len]);
            Swept {
                next: next,
                index: index_of(text, starts, marks, used, m, &owner[..len]),
                mark: m,
                number: 0,
                bit: type_bit(record.rtype),
                found: true,
                faulty: false,
            }
        }
        Content::Nothing => Swept {
            next: next,
            index: used,
            mark: 0,
            number: 0,
            bit: 0,
            found: false,
            faulty: false,
        },
        Content::Fault(number) => Swept {
            next: next,
            index: used,
            mark: 0,
            number: number,
            bit: 0,
            found: false,
            faulty: true,
        },
    }
}

// Keeps in which slot the name of one record more stands, as far as there is room.
fn note(slots: &mut [u8], count: usize, i: usize) -> usize
    requires { (count ≤ limit) × (i ≤ 255) }
    ensures { (result ≡ count + 1) × (slots.new ≡ set slots.old count i) }
{
    if count < slots.len() {
        slots[count] = i as u8;
        return count + 1;
    }
    count + 1
}

// What a sweep came to whose first record of a name that it could not keep stands at `rest`; that is the listing's length if there is none.
fn ended(length: usize, rest: usize) -> SweepOutcome
    ensures { result ≡ spec.ended_at length rest }
{
    if rest == length {
        return SweepOutcome::Whole;
    }
    SweepOutcome::Beyond(rest)
}

// Reads all entries from `from` on, and looks at their records.
fn sweep(text: &[u8], from: usize, slots: &mut [u8]) -> SweepOutcome
    requires { (length text.now ≤ limit) × (length slots.old ≡ most_records) }
    ensures { (rs : List ResourceRecord) (l : Last) → Gives text.now from rs l → spec.Sweeps text.now from most_names rs l slots.old slots.new result }
{
    let mut starts = [0u32; SLOTS];
    let mut marks = [0u32; SLOTS];
    let mut types = [0u8; SLOTS];
    let mut used: usize = 0;
    let mut count: usize = 0;
    let mut rest = text.len();
    let mut at = from;
    while at < text.len() {
        let seen = look(text, at, &starts, &marks, used);
        if seen.faulty {
            return SweepOutcome::Fault {
                number: seen.number,
                offset: at as u32,
            };
        }
        let here = at;
        let i = seen.index;
        let bit = seen.bit;
        at = seen.next;
        if seen.found {
            count = note(slots, count, i);
            if i < used {
                if types[i] / bit % 2 == 1 {
                    return SweepOutcome::Repeat(at);
                }
                types[i] = types[i] + bit;
            } else if i < SLOTS {
                starts[i] = here as u32;
                marks[i] = seen.mark;
                types[i] = bit;
                used = i + 1;
            } else if rest == text.len() {
                rest = here;
            }
        }
    }
    ended(text.len(), rest)
}

// There are more names than a table has: 32, unless two records are alike, here from `from` on, which comes first. The listing is right.
fn fault_beyond(text: &[u8], from: usize, slots: &mut [u8]) -> u32
    requires { (length text.now ≤ limit) × (length slots.old ≡ most_records) × (spec.Faultless text.now from) }
    ensures { (rs : List ResourceRecord) → Gives text.now from rs end → spec.RepeatOrFull rs result }
{
    let mut at = from;
    loop {
        match sweep(text, at, slots) {
            SweepOutcome::Repeat(_) => return RECORD_REPEATED,
            SweepOutcome::Whole => return TABLE_FULL,
            SweepOutcome::Beyond(next) => at = next,
            // never
            SweepOutcome::Fault { number, .. } => return number,
        }
    }
}

// Two records are alike: 35, unless an entry from `from` on is faulty, which comes first.
fn fault_after(text: &[u8], from: usize) -> Answer
    requires { length text.now ≤ limit }
    ensures { (rs : List ResourceRecord) (l : Last) → Gives text.now from rs l → result ≡ spec.fault_or 35 l }
{
    let mut at = from;
    while at < text.len() {
        let entry = read_entry(text, at);
        let next = entry.next;
        let content = entry.content;
        match content {
            Content::Nothing => {}
            Content::Record => {}
            Content::Fault(number) => {
                return Answer::Refused {
                    number: number,
                    offset: at as u32,
                };
            }
        }
        at = next;
    }
    Answer::refused(RECORD_REPEATED)
}

// What is found of a listing: the answer, and for each record in order the slot in which its name stands; zeros behind the last one, and wherever it is refused.
#[derive(Drop)]
pub struct Judged {
    pub answer: Answer,
    pub slots: [u8; RECORDS],
}

// A refusal has no slots.
fn without_slots(answer: Answer) -> Judged
    ensures { result ≡ without_slots answer }
{
    Judged {
        answer: answer,
        slots: [0u8; RECORDS],
    }
}

// Reads a listing and answers 0, with the slots of its records, where they make a table. Refusals: 17, and 20 to 24 with the offset of the faulty entry; 35; 32.
pub fn judge(text: &[u8]) -> Judged
    ensures { (rs : List ResourceRecord) (l : Last) → Gives text.now 0 rs l → Judges rs l result }
{
    if LISTING_LIMIT < text.len() {
        return without_slots(Answer::refused(LISTING_LONG));
    }
    let mut slots = [0u8; RECORDS];
    match sweep(text, 0, &mut slots) {
        SweepOutcome::Fault { number, offset } => without_slots(Answer::Refused {
            number: number,
            offset: offset,
        }),
        SweepOutcome::Repeat(at) => without_slots(fault_after(text, at)),
        SweepOutcome::Whole => Judged {
            answer: Answer::Accepted(0),
            slots: slots,
        },
        SweepOutcome::Beyond(at) => without_slots(Answer::refused(fault_beyond(
            text, at, &mut slots,
        ))),
    }
}
