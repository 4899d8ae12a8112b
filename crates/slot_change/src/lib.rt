// What a step does to one slot of the table.
#![tactic(auto)]

ghost use Rattle.std.specs.Prelude.{◌≡◌, ◌+◌, ◌≤◌, length, replicate, get_or};
ghost use Rattle.name.specs.Name.{canonical};
ghost use Rattle.slots.specs.Entry.{address_size};
ghost use Rattle.slots.specs.Fields.{bare, with_field};
ghost use Rattle.slots.specs.Form.{IsSlot, slot_bytes};
ghost use Rattle.slots.specs.Promise.{OfSlot, field_put, field_cleared};
ghost use Rattle.slots.specs.Promise as spec;
ghost use Rattle.slots.specs.Effect as effect;
ghost use Rattle.slots.specs.Sizes.{flags_at, field_size, field_at, field_bit, all_flags, address_type, body_size};

use base::slice::put;
use name::wire::put_canonical;
use octets::put_zeros;
use slot::{
    DHCID, FLAGS, HAS_DHCID, NAME, address_type, field_bit, field_offset, field_size, is_set, other,
};
use slots::{Family, Rtype};

// The flags with this one set.
fn with_flag(bit: u8, flags: u8) -> u8
    requires { (1 ≤ bit) × (flags + bit ≤ 255) }
    ensures { result ≡ spec.flag_set bit flags }
{
    if is_set(bit, flags) {
        flags
    } else {
        flags + bit
    }
}

// The flags with this one not set.
fn without_flag(bit: u8, flags: u8) -> u8
    requires { 1 ≤ bit }
    ensures { result ≡ spec.flag_cleared bit flags }
{
    if is_set(bit, flags) {
        flags - bit
    } else {
        flags
    }
}

// Writes a new name, its client and that client's address into an unused slot.
pub fn enter(slot: &mut [u8], name: &[u8], dhcid: &[u8], family: Family, address: &[u8])
    requires { (slot.old ≡ replicate body_size 0) × (length name.now ≤ 255) × (length dhcid.now ≡ 35) × (length address.now ≡ address_size family) }
    ensures { slot.new ≡ slot_bytes (effect.entered (canonical name.now) dhcid.now family address.now) }
{
    slot[0] = name.len() as u8;
    put_canonical(slot, NAME, name);
    put_field(slot, HAS_DHCID, DHCID, dhcid);
    put_address(slot, family, address);
}

// The client's address of this family, new or in the place of the one that was there.
pub fn refresh(slot: &mut [u8], family: Family, address: &[u8])
    requires { (IsSlot slot.old) × (length address.now ≡ address_size family) }
    ensures { OfSlot slot.old (λ e. slot.new ≡ slot_bytes (effect.refreshed family address.now e)) }
{
    put_address(slot, family, address);
}

// Another client takes the name over: of the former one's addresses none stays.
pub fn take_over(slot: &mut [u8], dhcid: &[u8], family: Family, address: &[u8])
    requires { (IsSlot slot.old) × (length dhcid.now ≡ 35) × (length address.now ≡ address_size family) }
    ensures { OfSlot slot.old (λ e. slot.new ≡ slot_bytes (effect.taken_over dhcid.now family address.now e)) }
{
    put_field(slot, HAS_DHCID, DHCID, dhcid);
    clear_address(slot, other(family));
    put_address(slot, family, address);
}

// Deletes the address of this family.
pub fn delete(slot: &mut [u8], family: Family)
    requires { IsSlot slot.old }
    ensures { OfSlot slot.old (λ e. slot.new ≡ slot_bytes (effect.deleted family e)) }
{
    clear_address(slot, family);
}

// Writes a record's data and sets its flag.
pub fn put_record(slot: &mut [u8], rtype: Rtype, bytes: &[u8])
    requires { (IsSlot slot.old) × (length bytes.now ≡ field_size rtype) }
    ensures { OfSlot slot.old (λ e. slot.new ≡ slot_bytes (with_field rtype bytes.now e)) }
{
    put_data(slot, rtype, bytes);
}

// Writes a new name and one record into an unused slot.
pub fn enter_record(slot: &mut [u8], name: &[u8], rtype: Rtype, bytes: &[u8])
    requires { (slot.old ≡ replicate body_size 0) × (length name.now ≤ 255) × (length bytes.now ≡ field_size rtype) }
    ensures { slot.new ≡ slot_bytes (with_field rtype bytes.now (bare (canonical name.now))) }
{
    slot[0] = name.len() as u8;
    put_canonical(slot, NAME, name);
    put_data(slot, rtype, bytes);
}

// Writes the data of a record of this type and sets its flag, in a slot that may have no flag yet.
fn put_data(slot: &mut [u8], rtype: Rtype, bytes: &[u8])
    requires { (length slot.old ≡ body_size) × (get_or slot.old flags_at 0 ≤ all_flags) × (length bytes.now ≡ field_size rtype) }
    ensures { slot.new ≡ field_put slot.old (field_bit rtype) (field_at rtype) bytes.now }
{
    put_field(slot, field_bit(rtype), field_offset(rtype), bytes);
}

// Writes an address of this family and sets its flag.
fn put_address(slot: &mut [u8], family: Family, address: &[u8])
    requires { (length slot.old ≡ body_size) × (get_or slot.old flags_at 0 ≤ all_flags) × (length address.now ≡ address_size family) }
    ensures { slot.new ≡ field_put slot.old (field_bit (address_type family)) (field_at (address_type family)) address.now }
{
    put_data(slot, address_type(family), address);
}

// Zeros in the place of this family's address, and its flag not set.
fn clear_address(slot: &mut [u8], family: Family)
    requires { length slot.old ≡ body_size }
    ensures { slot.new ≡ field_cleared slot.old (field_bit (address_type family)) (field_at (address_type family)) (address_size family) }
{
    let rtype = address_type(family);
    clear_field(
        slot,
        field_bit(rtype),
        field_offset(rtype),
        field_size(rtype),
    );
}

// Writes a field and sets its flag, be it set already or not.
fn put_field(slot: &mut [u8], bit: u8, at: usize, bytes: &[u8])
    requires { (length slot.old ≡ body_size) × (at + length bytes.now ≤ body_size) × (1 ≤ bit) × (get_or slot.old flags_at 0 + bit ≤ 255) }
    ensures { slot.new ≡ field_put slot.old bit at bytes.now }
{
    slot[FLAGS] = with_flag(bit, slot[FLAGS]);
    put(slot, at, bytes);
}

// Zeros in the place of a field, and its flag not set: what is absent is zeros.
fn clear_field(slot: &mut [u8], bit: u8, at: usize, size: usize)
    requires { (length slot.old ≡ body_size) × (at + size ≤ body_size) × (1 ≤ bit) }
    ensures { slot.new ≡ field_cleared slot.old bit at size }
{
    slot[FLAGS] = without_flag(bit, slot[FLAGS]);
    put_zeros(slot, at, size);
}
