// The reverse side: a row of slots, of which the used ones come first. A slot has the family (1 byte), the address (16), the name's wire length (1) and the name
// (255). Is it sound, where does an address stand, and what do a name that is put behind it and one that is taken out leave?
#![tactic(auto)]

ghost use Rattle.std.specs.Prelude.{◌≡◌, ℕ, ◌≤◌, ◌<◌, length};
ghost use Rattle.base.specs.Logic.{Decides};
ghost use Rattle.name.specs.Name.{Proper, canonical};
ghost use Rattle.slots.specs.Entry.{address_size};
ghost use Rattle.reverse.specs.Entry.{entry_at, placed, taken, Single};
ghost use Rattle.reverse.specs.Form.{family_number, key_bytes, slot_bytes, reverse_bytes, SoundReverse};
ghost use Rattle.reverse.specs.Promise.{IsKey, IsReverseSlot, Entries, OfReverse, key_at, FirstKey, place};
ghost use Rattle.reverse.specs.Sizes.{key_size, reverse_slot_size, most_addresses, reverse_size};

use base::slice::put;
use name::wire::{matches, put_canonical};
use octets::{are_zeros_at_once, close_up, put_zeros, same};
use slot::is_name_field;
use slots::Family;

// The number of a family, which a slot begins with; an unused one begins with 0.
const V4: u8 = 4;

const V6: u8 = 6;

// Where the parts of a slot stand: behind the family's number the address, and behind that the name with its length.
const ADDRESS: usize = 1;

const ADDRESS_ROOM: usize = 16;

const NAME_LEN: usize = ADDRESS + ADDRESS_ROOM;

const NAME: usize = NAME_LEN + 1;

const NAME_ROOM: usize = 255;

// Family and address: the bytes by which a slot is found.
const KEY: usize = NAME_LEN;

// The step from slot to slot, how many slots there are, and their bytes.
const SLOT: usize = NAME + NAME_ROOM;

pub const SLOTS: usize = 128;

pub const SIZE: usize = SLOT * SLOTS;

// Are these bytes a family and its address? Behind an address of 4 bytes are zeros.
fn is_key(key: &[u8]) -> bool
    requires { length key.now ≡ key_size }
    ensures { Decides result (IsKey key.now) }
{
    if key[0] == V4 {
        return are_zeros_at_once(&key[5..KEY]);
    }
    key[0] == V6
}

// Is this the slot of an entry that a sound reverse side can have?
fn is_reverse_slot(slot: &[u8]) -> bool
    requires { length slot.now ≡ reverse_slot_size }
    ensures { Decides result (IsReverseSlot slot.now) }
{
    if !is_key(&slot[0..KEY]) {
        return false;
    }
    is_name_field(&slot[KEY..SLOT])
}

// Is every slot well formed, with the used ones first?
fn are_slots(reverse: &[u8]) -> bool
    requires { length reverse.now ≡ reverse_size }
    ensures { Decides result (Entries most_addresses reverse.now) }
{
    let mut i: usize = 0;
    while i < SLOTS {
        let at = SLOT * i;
        if reverse[at] == 0 {
            return are_zeros_at_once(&reverse[at..]);
        }
        if !is_reverse_slot(&reverse[at..at + SLOT]) {
            return false;
        }
        i += 1;
    }
    true
}

// How many addresses stand: the slots before the first unused one.
fn count(reverse: &[u8]) -> usize
    requires { Entries most_addresses reverse.now }
    ensures { OfReverse most_addresses reverse.now (λ rs. result ≡ length rs) }
{
    let mut i: usize = 0;
    while i < SLOTS {
        let number = reverse[SLOT * i];
        if number == 0 {
            return i;
        }
        i += 1;
    }
    i
}

// Are two keys the same? The family's number first, then all of the address at once.
fn same_key(a: &[u8], b: &[u8]) -> bool
    requires { (length a.now ≡ key_size) × (length b.now ≡ key_size) }
    ensures { Decides result (a.now ≡ b.now) }
{
    if a[0] != b[0] {
        return false;
    }
    same(&a[ADDRESS..KEY], &b[ADDRESS..KEY])
}

// The first of the slots before `end` that has this key; `end` where none of them has it.
fn first_with(reverse: &[u8], key: &[u8], end: usize) -> usize
    requires { (length reverse.now ≡ reverse_size) × (length key.now ≡ key_size) × (end ≤ most_addresses) }
    ensures { FirstKey reverse.now key.now end result }
{
    let mut i: usize = 0;
    while i < end {
        let at = SLOT * i;
        if same_key(&reverse[at..at + KEY], key) {
            return i;
        }
        i += 1;
    }
    i
}

// Does the address in slot i stand in no slot before it?
fn is_first(reverse: &[u8], i: usize) -> bool
    requires { (length reverse.now ≡ reverse_size) × (i < most_addresses) }
    ensures { Decides result ((j : ℕ) → j < i → key_at reverse.now j ≡ key_at reverse.now i → ⊥) }
{
    let at = SLOT * i;
    first_with(reverse, &reverse[at..at + KEY], i) == i
}

// Does no address stand twice? It does not if each stands in no slot before its own.
fn no_address_twice(reverse: &[u8]) -> bool
    requires { Entries most_addresses reverse.now }
    ensures { OfReverse most_addresses reverse.now (λ rs. Decides result (Single rs)) }
{
    let used = count(reverse);
    let mut i: usize = 0;
    while i < used {
        if !is_first(reverse, i) {
            return false;
        }
        i += 1;
    }
    true
}

// Are these the bytes of a sound reverse side?
pub fn is_sound(reverse: &[u8]) -> bool
    ensures { Decides result (SoundReverse most_addresses reverse.now) }
{
    if reverse.len() != SIZE {
        return false;
    }
    if !are_slots(reverse) {
        return false;
    }
    no_address_twice(reverse)
}

// The number that a slot of this family begins with.
fn family_number(family: Family) -> u8
    ensures { result ≡ family_number family }
{
    match family {
        Family::V4 => V4,
        Family::V6 => V6,
    }
}

// The key of an address.
fn key_of(family: Family, address: &[u8]) -> [u8; 17]
    requires { length address.now ≡ address_size family }
    ensures { result ≡ key_bytes family address.now }
{
    let mut key = [0u8; 17];
    key[0] = family_number(family);
    put(&mut key, ADDRESS, address);
    key
}

// The index of the slot that has this address; of the first unused slot, if none has it, or the number of slots, if all are used.
pub fn find(reverse: &[u8], family: Family, address: &[u8]) -> usize
    requires { (Entries most_addresses reverse.now) × (length address.now ≡ address_size family) }
    ensures { OfReverse most_addresses reverse.now (λ rs. result ≡ place family address.now rs) }
{
    let used = count(reverse);
    let sought = key_of(family, address);
    first_with(reverse, &sought, used)
}

// Writes a slot, whatever it held before.
fn put_slot(slot: &mut [u8], family: Family, address: &[u8], name: &[u8])
    requires { (length slot.old ≡ reverse_slot_size) × (length address.now ≡ address_size family) × (length name.now ≤ 255) }
    ensures { slot.new ≡ slot_bytes (entry_at family address.now (canonical name.now)) }
{
    let key = key_of(family, address);
    put(slot, 0, &key);
    slot[NAME_LEN] = name.len() as u8;
    put_canonical(slot, NAME, name);
    let end = NAME + name.len();
    put_zeros(slot, end, SLOT - end);
}

// Puts the name behind an address, whose slot `find` has found and is there: in the place of the name that was behind it, or last.
pub fn put_behind(reverse: &mut [u8], i: usize, family: Family, address: &[u8], name: &[u8])
    requires { (Entries most_addresses reverse.old) × (i < most_addresses) × (length address.now ≡ address_size family) × (Proper name.now) }
    ensures { OfReverse most_addresses reverse.old (λ rs. i ≡ place family address.now rs → reverse.new ≡ reverse_bytes most_addresses (placed family address.now (canonical name.now) rs)) }
{
    let at = SLOT * i;
    put_slot(&mut reverse[at..at + SLOT], family, address, name);
}

// Takes the name from behind an address, if it is the one there; later ones move up.
pub fn take_out(reverse: &mut [u8], family: Family, address: &[u8], name: &[u8])
    requires { (Entries most_addresses reverse.old) × (length address.now ≡ address_size family) × (Proper name.now) }
    ensures { OfReverse most_addresses reverse.old (λ rs. reverse.new ≡ reverse_bytes most_addresses (taken family address.now (canonical name.now) rs)) }
{
    let i = find(reverse, family, address);
    if i == SLOTS {
        return;
    }
    let at = SLOT * i;
    // an unused slot has no name, which no proper name matches
    let start = at + NAME;
    let end = start + reverse[at + NAME_LEN] as usize;
    if !matches(name, &reverse[start..end]) {
        return;
    }
    close_up(reverse, SLOT, at);
}
