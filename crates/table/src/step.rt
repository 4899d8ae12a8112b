// The three steps on a sound table, with sound arguments. That of a remove is two, one that reads and decides and one that writes: so a caller can write elsewhere
// between them.
ghost use Rattle.std.specs.Prelude.{true, ◌≡◌, ◌+◌, ◌≤◌, length, replicate};
ghost use Rattle.base.specs.Bytes.{eq_bytes};
ghost use Rattle.base.specs.Dhcid.{well_formed};
ghost use Rattle.name.specs.Name.{Proper, canonical};
ghost use Rattle.slots.specs.Effect as effect;
ghost use Rattle.slots.specs.Entry.{address_of, address_size};
ghost use Rattle.slots.specs.Form.{IsSlot, slot_bytes, Sound};
ghost use Rattle.slots.specs.Promise.{OfSlot, OfTable, holding, is_address, removal};
ghost use Rattle.slots.specs.Sizes.{most_names, slot_size};
ghost use Rattle.table.specs.Promise as spec;
ghost use Rattle.table.specs.Promise.{slot_at};
ghost use Rattle.table.specs.Steps as step;

use crate::arguments::FIRST_WINS;
use crate::slot_for::{SlotFor, slot_for};
use base::Answer;
use base::refusal::{HELD_BY_ANOTHER, KEPT_BY_HAND, NAME_NOT_HELD, TABLE_FULL};
use octets::close_up;
use slots::{Family, Holding, Removal};

// What a remove comes to, and in which slot.
#[derive(Drop)]
pub enum RemovalFor {
    // refused with this number
    Refused(u32),
    // the address is deleted in the slot at this offset
    Address(usize),
    // the slot at this offset is taken out, since no address would be left in it
    Name(usize),
}

// An add to a name that stands.
fn add_held(slot: &mut [u8], dhcid: &[u8], family: Family, address: &[u8], policy: u32) -> Answer
    requires { (IsSlot slot.old) × (length dhcid.now ≡ 35) × (length address.now ≡ address_size family) }
    ensures { OfSlot slot.old (λ e. spec.LeavesEntry (spec.added_at (holding eq_bytes e.holder dhcid.now) policy e (effect.refreshed family address.now e) (effect.taken_over dhcid.now family address.now e)) result slot.new) }
{
    let holder = slot::holding(slot, dhcid);
    match holder {
        Holding::ByHand => Answer::refused(KEPT_BY_HAND),
        Holding::ByThis => {
            slot_change::refresh(slot, family, address);
            Answer::Accepted(1)
        }
        Holding::ByAnother => {
            if policy == FIRST_WINS {
                return Answer::refused(HELD_BY_ANOTHER);
            }
            slot_change::take_over(slot, dhcid, family, address);
            Answer::Accepted(2)
        }
    }
}

// An add to the name whose slot is at `at`.
fn add_at(
    table: &mut [u8],
    at: usize,
    dhcid: &[u8],
    family: Family,
    address: &[u8],
    policy: u32,
) -> Answer
    requires { (at + slot_size ≤ length table.old) × (IsSlot (slot_at table.old at)) × (length dhcid.now ≡ 35) × (length address.now ≡ address_size family) }
    ensures { OfSlot (slot_at table.old at) (λ e. spec.LeavesSlot table.old at (spec.added_at (holding eq_bytes e.holder dhcid.now) policy e (effect.refreshed family address.now e) (effect.taken_over dhcid.now family address.now e)) result table.new) }
{
    let end = at + slot::SIZE;
    add_held(&mut table[at..end], dhcid, family, address, policy)
}

// A new name in the unused slot at `at`.
fn enter_at(table: &mut [u8], at: usize, name: &[u8], dhcid: &[u8], family: Family, address: &[u8])
    requires { (at + slot_size ≤ length table.old) × (slot_at table.old at ≡ replicate slot_size 0) × (length name.now ≤ 255) × (length dhcid.now ≡ 35) × (length address.now ≡ address_size family) }
    ensures { table.new ≡ spec.in_slot table.old at (slot_bytes (effect.entered (canonical name.now) dhcid.now family address.now)) }
{
    let end = at + slot::SIZE;
    slot_change::enter(&mut table[at..end], name, dhcid, family, address);
}

// What a remove from the name whose slot is at `at` comes to.
fn removal_at(table: &[u8], at: usize, dhcid: &[u8], family: Family, address: &[u8]) -> RemovalFor
    requires { (at + slot_size ≤ length table.now) × (IsSlot (slot_at table.now at)) }
    ensures { OfSlot (slot_at table.now at) (λ e. result ≡ spec.removal_at (removal (holding eq_bytes e.holder dhcid.now) (is_address (address_of family e) address.now) (effect.has_address (effect.deleted family e))) at) }
{
    let end = at + slot::SIZE;
    let removal = slot::removal(&table[at..end], dhcid, family, address);
    match removal {
        Removal::Refused(number) => RemovalFor::Refused(number),
        Removal::Address => RemovalFor::Address(at),
        Removal::Name => RemovalFor::Name(at),
    }
}

// Deletes the address of this family in the slot at `at`.
fn delete_at(table: &mut [u8], at: usize, family: Family)
    requires { (at + slot_size ≤ length table.old) × (IsSlot (slot_at table.old at)) }
    ensures { OfSlot (slot_at table.old at) (λ e. table.new ≡ spec.in_slot table.old at (slot_bytes (effect.deleted family e))) }
{
    let end = at + slot::SIZE;
    slot_change::delete(&mut table[at..end], family);
}

// The step of an add: to a name that stands, or to a new one.
pub fn add(
    table: &mut [u8],
    name: &[u8],
    dhcid: &[u8],
    family: Family,
    address: &[u8],
    policy: u32,
) -> Answer
    requires { (Sound most_names table.old) × (Proper name.now) × (well_formed dhcid.now ≡ true) × (length address.now ≡ address_size family) }
    ensures { OfTable most_names table.old (λ t. spec.Results most_names (step.add most_names eq_bytes t (canonical name.now) dhcid.now family address.now policy) result table.new) }
{
    let slot = slot_for(table, name);
    match slot {
        SlotFor::Held(at) => add_at(table, at, dhcid, family, address, policy),
        SlotFor::Free(at) => {
            enter_at(table, at, name, dhcid, family, address);
            Answer::Accepted(0)
        }
        SlotFor::Full => Answer::refused(TABLE_FULL),
    }
}

// What does a remove of this address by the client with this DHCID come to? Nothing is written.
pub fn removal_for(
    table: &[u8],
    name: &[u8],
    dhcid: &[u8],
    family: Family,
    address: &[u8],
) -> RemovalFor
    requires { Sound most_names table.now }
    ensures { OfTable most_names table.now (λ t. result ≡ spec.removal_for t (canonical name.now) dhcid.now family address.now) }
{
    let slot = slot_for(table, name);
    match slot {
        SlotFor::Held(at) => removal_at(table, at, dhcid, family, address),
        SlotFor::Free(_) => RemovalFor::Refused(NAME_NOT_HELD),
        SlotFor::Full => RemovalFor::Refused(NAME_NOT_HELD),
    }
}

// Does what a remove of this family's address comes to. The name is not looked up again, so the table has to be as it was when that was asked.
pub fn carry_out(table: &mut [u8], removal: RemovalFor, family: Family) -> Answer
    requires { spec.CanCarryOut removal table.old }
    ensures { spec.CarriesOut removal family table.old result table.new }
{
    match removal {
        RemovalFor::Refused(number) => Answer::refused(number),
        RemovalFor::Address(at) => {
            delete_at(table, at, family);
            Answer::Accepted(0)
        }
        RemovalFor::Name(at) => {
            octets::close_up(table, slot::SIZE, at);
            Answer::Accepted(0)
        }
    }
}

// The step of a remove.
pub fn remove(table: &mut [u8], name: &[u8], dhcid: &[u8], family: Family, address: &[u8]) -> Answer
    requires { Sound most_names table.old }
    ensures { OfTable most_names table.old (λ t. spec.Results most_names (step.remove eq_bytes t (canonical name.now) dhcid.now family address.now) result table.new) }
{
    let removal = removal_for(table, name, dhcid, family, address);
    carry_out(table, removal, family)
}

// The step of a clear.
pub(crate) fn clear(table: &mut [u8], name: &[u8]) -> Answer
    requires { Sound most_names table.old }
    ensures { OfTable most_names table.old (λ t. spec.Results most_names (step.clear t (canonical name.now)) result table.new) }
{
    let slot = slot_for(table, name);
    match slot {
        SlotFor::Held(at) => {
            close_up(table, slot::SIZE, at);
            Answer::Accepted(0)
        }
        SlotFor::Free(_) => Answer::refused(NAME_NOT_HELD),
        SlotFor::Full => Answer::refused(NAME_NOT_HELD),
    }
}
