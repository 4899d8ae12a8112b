// The table of names: add, remove and clear, find and count. A call decides first and writes last, so a refused one has written nothing.
#![tactic(auto)]

pub mod arguments;
pub mod slot_for;
pub mod step;

ghost use Rattle.slots.specs.Sizes.{most_names};
ghost use Rattle.table.specs.Calls as calls;

use arguments::{argument_fault, is_policy, name_fault};
use base::Answer;
use base::refusal::{NAME_NOT_HELD, TABLE_NOT_SOUND};
use slot::{family_of, is_family};
use slot_row::is_sound;

// Gives the name to the client with this DHCID, with its address, under the policy for a name that another client holds: 0, the first keeps it, or 1, the latest
// takes it over. Answers 0 for a new name, 1 for the same client, 2 for a takeover. Refusals: 12, 40, 9, 15, 16, then 31, 30 or 32.
pub fn add(
    table: &mut [u8],
    name: &[u8],
    dhcid: &[u8],
    family: u32,
    address: &[u8],
    policy: u32,
) -> Answer
    ensures { calls.Adds most_names table.old name.now dhcid.now family address.now policy result table.new }
{
    let known = is_family(family) & is_policy(policy);
    let fault = argument_fault(known, table, name, dhcid, family, address);
    if fault != 0 {
        return Answer::refused(fault);
    }
    step::add(table, name, dhcid, family_of(family), address, policy)
}

// Deletes this address of the name that the client with this DHCID holds; with the last address the name goes, and later ones move up. Answers 0. Refusals: 12,
// 40, 9, 15, 16, 33, 31, 30, 34.
pub fn remove(table: &mut [u8], name: &[u8], dhcid: &[u8], family: u32, address: &[u8]) -> Answer
    ensures { calls.Removes most_names table.old name.now dhcid.now family address.now result table.new }
{
    let fault = argument_fault(is_family(family), table, name, dhcid, family, address);
    if fault != 0 {
        return Answer::refused(fault);
    }
    step::remove(table, name, dhcid, family_of(family), address)
}

// Takes the name out, whoever holds it; later ones move up. Answers 0. Refusals: 40, 9, 33.
pub fn clear(table: &mut [u8], name: &[u8]) -> Answer
    ensures { calls.Clears most_names table.old name.now result table.new }
{
    let fault = name_fault(table, name);
    if fault != 0 {
        return Answer::refused(fault);
    }
    step::clear(table, name)
}

// The index of the slot that has the name, from 0 on. Refusals: 40, 9, 33.
pub fn find(table: &[u8], name: &[u8]) -> Answer
    ensures { calls.Finds most_names table.now name.now result }
{
    let fault = name_fault(table, name);
    if fault != 0 {
        return Answer::refused(fault);
    }
    let i = slot_row::find(table, name);
    if i == slot_row::count(table) {
        return Answer::refused(NAME_NOT_HELD);
    }
    Answer::Accepted(i as u32)
}

// How many names there are. Refusals: 40.
pub fn count(table: &[u8]) -> Answer
    ensures { calls.Counts most_names table.now result }
{
    if !is_sound(table) {
        return Answer::refused(TABLE_NOT_SOUND);
    }
    Answer::Accepted(slot_row::count(table) as u32)
}
