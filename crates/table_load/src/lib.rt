// Loading a listing into a table. A load decides first and writes last: all of the listing is read, and its records are looked at together, before the first byte of the
// table is written.
#![tactic(auto)]

ghost use Rattle.std.specs.Prelude.{cond, ◌≡◌, List, ◌+◌, ◌≤◌, ◌<◌, ltb, length, replicate};
ghost use Rattle.grammar.specs.Listing.{ResourceRecord};
ghost use Rattle.listing.specs.Giving.{end, Gives};
ghost use Rattle.listing.specs.Reading.{limit};
ghost use Rattle.name.specs.Name.{canonical};
ghost use Rattle.records.specs.Calls.{Loads};
ghost use Rattle.records.specs.Gathered.{table_of};
ghost use Rattle.records.specs.Promise.{written, stored};
ghost use Rattle.slots.specs.Fields.{bare, with_field};
ghost use Rattle.slots.specs.Form.{IsSlot, slot_bytes, table_bytes, Sound};
ghost use Rattle.slots.specs.Promise.{OfSlot, OfTable};
ghost use Rattle.slots.specs.Sizes.{field_size, slot_size, most_names, most_records, table_size};
ghost use Rattle.table.specs.Promise.{slot_at, in_slot};
ghost use Rattle.writer.specs.Line.{Holds};
ghost use Rattle.table_load.specs.Promise as spec;

use base::Answer;
use base::refusal::OUTPUT_SHORT;
use entry::{Content, Record, TYPE_A, TYPE_AAAA, read_entry};
use slot::field_size;
use slot_change::{enter_record, put_record};
use slot_row::{SIZE, make_empty};
use slots::Rtype;
use table_fault::judge;

// The type of a record, by its number.
fn rtype_of(number: u8) -> Rtype
    ensures { result ≡ spec.numbered number }
{
    match number {
        TYPE_A => Rtype::A,
        TYPE_AAAA => Rtype::Aaaa,
        _ => Rtype::Dhcid,
    }
}

// A record in the used slot at `at`.
fn put_at(table: &mut [u8], at: usize, rtype: Rtype, bytes: &[u8])
    requires { (at + slot_size ≤ length table.old) × (IsSlot (slot_at table.old at)) × (length bytes.now ≡ field_size rtype) }
    ensures { OfSlot (slot_at table.old at) (λ e. table.new ≡ in_slot table.old at (slot_bytes (with_field rtype bytes.now e))) }
{
    let end = at + slot::SIZE;
    put_record(&mut table[at..end], rtype, bytes);
}

// A new name with one record in the unused slot at `at`.
fn enter_at(table: &mut [u8], at: usize, name: &[u8], rtype: Rtype, bytes: &[u8])
    requires { (at + slot_size ≤ length table.old) × (slot_at table.old at ≡ replicate slot_size 0) × (length name.now ≤ 255) × (length bytes.now ≡ field_size rtype) }
    ensures { table.new ≡ in_slot table.old at (slot_bytes (with_field rtype bytes.now (bare (canonical name.now)))) }
{
    let end = at + slot::SIZE;
    enter_record(&mut table[at..end], name, rtype, bytes);
}

// A record under its owner, a name in canonical form that has none of that type, in slot i, which is unused where the name is new.
fn write_in(table: &mut [u8], i: usize, used: usize, name: &[u8], rtype: Rtype, bytes: &[u8])
    requires { (Sound most_names table.old) × (i ≤ 255) × (canonical name.now ≡ name.now) × (length name.now ≤ 255) × (length bytes.now ≡ field_size rtype) × (spec.AtSlot table.old used name.now i) }
    ensures { OfTable most_names table.old (λ t. table.new ≡ table_bytes most_names (written name.now rtype bytes.now t)) }
{
    if i < used {
        put_at(table, slot::SIZE * i, rtype, bytes);
    } else {
        enter_at(table, slot::SIZE * i, name, rtype, bytes);
    }
}

// Stores a record under its owner, which is a new name or has none of that type, in slot i.
fn store(table: &mut [u8], i: usize, used: usize, place: Record)
    requires { (Sound most_names table.old) × (i ≤ 255) × (spec.Storable table.old used i place) }
    ensures { (r : ResourceRecord) → Holds place r → OfTable most_names table.old (λ t. table.new ≡ table_bytes most_names (stored r t)) }
{
    let owner: &[u8] = &place.owner;
    let len = place.owner_len as usize;
    let rdata = place.rdata;
    let bytes: &[u8] = &rdata;
    let rtype = rtype_of(place.rtype);
    let size = field_size(rtype);
    write_in(table, i, used, &owner[..len], rtype, &bytes[..size]);
}

// How far a table is filled: up to an offset of the listing, with so many records of so many names.
#[derive(Drop)]
struct Progress {
    at: usize,
    count: usize,
    used: usize,
}

// How many names there are once slot i is used.
fn used_with(i: usize, used: usize) -> usize
    requires { i ≤ 255 }
    ensures { result ≡ cond (ltb i used) used (i + 1) }
{
    if i < used {
        return used;
    }
    i + 1
}

// Stores the record of the entry at which it stands, if it has one, and goes on to the next.
fn store_next(table: &mut [u8], text: &[u8], slots: &[u8], from: Progress) -> Progress
    requires { (from.at < length text.now) × (length slots.now ≡ most_records) × (spec.Filled text.now slots.now from table.old) }
    ensures filled { spec.Filled text.now slots.now result table.new }
    ensures at_lt_at { from.at < result.at }
{
    let at = from.at;
    let count = from.count;
    let used = from.used;
    let entry = read_entry(text, at);
    let record = entry.record;
    let next = entry.next;
    let content = entry.content;
    match content {
        Content::Record => {
            let i = slots[count] as usize;
            store(table, i, used, record);
            Progress {
                at: next,
                count: count + 1,
                used: used_with(i, used),
            }
        }
        Content::Nothing => Progress {
            at: next,
            count: count,
            used: used,
        },
        // never, since the listing is right
        Content::Fault(_) => Progress {
            at: next,
            count: count,
            used: used,
        },
    }
}

// Makes the table that of the records of a listing, whatever it was. Each goes into the slot that `slots` has for it.
fn fill(table: &mut [u8], text: &[u8], slots: &[u8])
    requires { (length table.old ≡ table_size) × (length slots.now ≡ most_records) × ((rs : List ResourceRecord) × spec.Loadable text.now slots.now rs) }
    ensures { (rs : List ResourceRecord) → Gives text.now 0 rs end → table.new ≡ table_bytes most_names (table_of rs) }
{
    make_empty(table);
    let mut at: usize = 0;
    let mut count: usize = 0;
    let mut used: usize = 0;
    while at < text.len() {
        let on = store_next(
            table,
            text,
            slots,
            Progress {
                at: at,
                count: count,
                used: used,
            },
        );
        at = on.at;
        count = on.count;
        used = on.used;
    }
}

// Loads a listing whose records make a table.
fn load_right(table: &mut [u8], text: &[u8], slots: &[u8]) -> Answer
    requires { (length slots.now ≡ most_records) × ((rs : List ResourceRecord) × spec.Loadable text.now slots.now rs) }
    ensures { Loads limit most_names text.now table.old result table.new }
{
    if table.len() < SIZE {
        return Answer::refused(OUTPUT_SHORT);
    }
    fill(&mut table[..SIZE], text, slots);
    Answer::Accepted(0)
}

// Loads a listing into the first 19,968 bytes of an area, whatever they were, and answers 0. Refusals, at which the area stays as it was: 17, and 20 to 24 with the offset of
// the faulty entry; 35; 32; and 13 where the area is too short.
pub fn load(table: &mut [u8], text: &[u8]) -> Answer
    ensures { Loads limit most_names text.now table.old result table.new }
{
    let judged = judge(text);
    let slots = judged.slots;
    let answer = judged.answer;
    match answer {
        Answer::Refused { number, offset } => Answer::Refused {
            number: number,
            offset: offset,
        },
        Answer::Accepted(_) => load_right(table, text, &slots),
    }
}
