// A table of names written as a listing: one pass over the slots that measures, and one that writes.
#![tactic(auto)]

ghost use Rattle.std.specs.Prelude.{◌≡◌, length};
ghost use Rattle.base.specs.Bytes.{overlay};
ghost use Rattle.entry.specs.Held.{type_number};
ghost use Rattle.slots.specs.Form.{IsSlot};
ghost use Rattle.slots.specs.Promise.{OfSlot, Entries, OfTable};
ghost use Rattle.slots.specs.Sizes.{most_names};
ghost use Rattle.records.specs.Written.{listing_of};
ghost use Rattle.records.specs.Calls.{Writes};
ghost use Rattle.table_write.specs.Promise.{type_of, field_text, entry_text, SlotFits, TableFits, Puts};

use base::Answer;
use base::refusal::{OUTPUT_SHORT, TABLE_NOT_SOUND};
use entry::{TYPE_A, TYPE_AAAA, TYPE_DHCID};
use name_text::put_text;
use slot_row::{SLOTS, is_sound};
use slots::Rtype;
use writer::{put_rest, rest_length};

// The number of a type.
fn rtype_number(rtype: Rtype) -> u8
    ensures { result ≡ type_number (type_of rtype) }
{
    match rtype {
        Rtype::A => TYPE_A,
        Rtype::Aaaa => TYPE_AAAA,
        Rtype::Dhcid => TYPE_DHCID,
    }
}

// How many bytes the line of a slot's record of this type has: 0 if there is none.
fn field_length(slot: &[u8], rtype: Rtype) -> usize
    requires { IsSlot slot.now }
    ensures { OfSlot slot.now (λ e. result ≡ length (field_text rtype e)) }
{
    if !slot::has(slot, rtype) {
        return 0;
    }
    let name = slot::name_of(slot);
    // a name has one byte less in text
    name.len() - 1 + rest_length(rtype_number(rtype), slot::data_from(slot, rtype))
}

// How many bytes the lines of a slot have.
fn slot_length(slot: &[u8]) -> usize
    requires { IsSlot slot.now }
    ensures { OfSlot slot.now (λ e. result ≡ length (entry_text e)) }
{
    field_length(slot, Rtype::A)
        + field_length(slot, Rtype::Aaaa)
        + field_length(slot, Rtype::Dhcid)
}

// How many bytes the listing of a table has.
fn listing_length(table: &[u8]) -> usize
    requires { Entries most_names table.now }
    ensures { OfTable most_names table.now (λ t. result ≡ length (listing_of t)) }
{
    let mut sum: usize = 0;
    let mut i: usize = 0;
    while i < SLOTS {
        let start = slot::SIZE * i;
        // the used slots come first
        if table[start] == 0 {
            return sum;
        }
        sum += slot_length(&table[start..start + slot::SIZE]);
        i += 1;
    }
    sum
}

// Writes the line of a slot's record of this type, if there is one, and answers where it ends.
fn put_field(to: &mut [u8], at: usize, slot: &[u8], rtype: Rtype) -> usize
    requires { SlotFits (field_text rtype) slot.now at to.old }
    ensures { OfSlot slot.now (λ e. Puts (field_text rtype e) at to.old result to.new) }
{
    if !slot::has(slot, rtype) {
        return at;
    }
    let name = slot::name_of(slot);
    let number = rtype_number(rtype);
    let bytes = slot::data_from(slot, rtype);
    put_text(to, at, name);
    // a name has one byte less in text
    let rest = at + (name.len() - 1);
    put_rest(to, rest, number, bytes);
    rest + rest_length(number, bytes)
}

// Writes the lines of a slot, A, AAAA and DHCID, and answers where they end.
fn put_slot(to: &mut [u8], at: usize, slot: &[u8]) -> usize
    requires { SlotFits entry_text slot.now at to.old }
    ensures { OfSlot slot.now (λ e. Puts (entry_text e) at to.old result to.new) }
{
    let aaaa = put_field(to, at, slot, Rtype::A);
    let dhcid = put_field(to, aaaa, slot, Rtype::Aaaa);
    put_field(to, dhcid, slot, Rtype::Dhcid)
}

// Writes the listing of a table, for which there is room.
fn put_listing(to: &mut [u8], table: &[u8])
    requires { TableFits most_names table.now to.old }
    ensures { OfTable most_names table.now (λ t. to.new ≡ overlay to.old 0 (listing_of t)) }
{
    let mut at: usize = 0;
    let mut i: usize = 0;
    while i < SLOTS {
        let start = slot::SIZE * i;
        if table[start] == 0 {
            return;
        }
        at = put_slot(to, at, &table[start..start + slot::SIZE]);
        i += 1;
    }
}

// Writes a sound table as a listing: per name A, AAAA and DHCID, as far as it has them. Answers how many bytes that is; the rest of `out` is unchanged.
// Refusals: 40, 13; a refused call has written nothing.
pub fn write(table: &[u8], out: &mut [u8]) -> Answer
    ensures { Writes most_names table.now out.old result out.new }
{
    if !is_sound(table) {
        return Answer::refused(TABLE_NOT_SOUND);
    }
    let n = listing_length(table);
    if out.len() < n {
        return Answer::refused(OUTPUT_SHORT);
    }
    put_listing(out, table);
    Answer::Accepted(n as u32)
}
