// The table: a row of slots, of which the used ones come first.
#![tactic(auto)]

ghost use Rattle.std.specs.Prelude.{◌≡◌, List, [], ◌∷◌, ◌<◌, length, drop};
ghost use Rattle.base.specs.Logic.{Decides};
ghost use Rattle.name.specs.Name.{canonical};
ghost use Rattle.slots.specs.Entry.{names, position, Distinct};
ghost use Rattle.slots.specs.Form.{TableEntry, Sound, table_bytes};
ghost use Rattle.slots.specs.Promise.{Entries, OfTable, name_at};
ghost use Rattle.slots.specs.Sizes.{most_names, table_size};

use name::wire::matches;
use octets::{are_zeros_at_once, put_zeros, same};
use slot::is_slot;

// How many slots there are, and their bytes.
pub const SLOTS: usize = 64;

pub const SIZE: usize = slot::SIZE * SLOTS;

// How many records they hold at most: three to a name.
pub const RECORDS: usize = 3 * SLOTS;

// Is every slot well formed, with the used ones first? Each byte is looked at a bounded number of times.
fn are_slots(table: &[u8]) -> bool
    requires { length table.now ≡ table_size }
    ensures { Decides result (Entries most_names table.now) }
{
    for i in 0..SLOTS {
        let at = slot::SIZE * i;
        if table[at] == 0 {
            return are_zeros_at_once(&table[at..]);
        }
        if !is_slot(&table[at..at + slot::SIZE]) {
            return false;
        }
    }
    true
}

// The name in slot i; no bytes if the slot is unused.
fn name_at(table: &[u8], i: usize) -> &[u8]
    requires { (length table.now ≡ table_size) × (i < most_names) }
    ensures { result.now ≡ name_at table.now i }
{
    let at = slot::SIZE * i;
    let len = table[at] as usize;
    let start = at + slot::NAME;
    &table[start..start + len]
}

// The index of the slot that has this name, which may be in any case; of the first unused slot, if none has it, or the number of slots, if all are used.
// Bytes are compared only with names of the same length, and only up to the first chunk that differs.
pub fn find(table: &[u8], name: &[u8]) -> usize
    requires { Entries most_names table.now }
    ensures { OfTable most_names table.now (λ t. result ≡ position (canonical name.now) t) }
{
    for i in 0..SLOTS {
        let held = name_at(table, i);
        if held.is_empty() || matches(name, held) {
            return i;
        }
    }
    SLOTS
}

// How many names stand: the slots before the first unused one.
pub fn count(table: &[u8]) -> usize
    requires { Entries most_names table.now }
    ensures { OfTable most_names table.now (λ t. result ≡ length t) }
{
    for i in 0..SLOTS {
        let len = table[slot::SIZE * i];
        if len == 0 {
            return i;
        }
    }
    SLOTS
}

// Does the name in slot i stand in no slot before it?
fn is_first(table: &[u8], i: usize) -> bool
    requires { (Entries most_names table.now) × (i < most_names) }
    ensures { OfTable most_names table.now (λ t. ((e : TableEntry) (r : List TableEntry) → drop i t ≡ e ∷ r → Decides result (position e.name t ≡ i))) }
{
    let name = name_at(table, i);
    for j in 0..i {
        if same(name_at(table, j), name) {
            return false;
        }
    }
    true
}

// Does no name stand twice? It does not if each stands in no slot before its own.
fn no_name_twice(table: &[u8]) -> bool
    requires { Entries most_names table.now }
    ensures { OfTable most_names table.now (λ t. Decides result (Distinct (names t))) }
{
    for i in 0..SLOTS {
        if table[slot::SIZE * i] == 0 {
            return true;
        }
        if !is_first(table, i) {
            return false;
        }
    }
    true
}

// Are these the bytes of a sound table?
pub fn is_sound(table: &[u8]) -> bool
    ensures { Decides result (Sound most_names table.now) }
{
    table.len() == SIZE && are_slots(table) && no_name_twice(table)
}

// Makes the table empty.
pub fn make_empty(table: &mut [u8])
    requires { length table.old ≡ table_size }
    ensures { table.new ≡ table_bytes most_names [] }
{
    put_zeros(table, 0, SIZE);
}
