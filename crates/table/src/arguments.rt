// What is tested before a step, in document 01's order (docs/RULES.md, 7.3 to 7.5). A lease tests a policy and a client as an add does.
ghost use Rattle.std.specs.Prelude.{true, ◌≡◌};
ghost use Rattle.base.specs.Logic.{Decides};
ghost use Rattle.slots.specs.Sizes.{most_names};
ghost use Rattle.table.specs.Calls as calls;

use base::dhcid::is_well_formed;
use base::refusal::{
    ADDRESS_LENGTH, NO_PROPER_NAME, NOT_A_DHCID, TABLE_NOT_SOUND, UNKNOWN_SETTING,
};
use name::wire::is_proper;
use slot::{address_size, family_of};
use slot_row::is_sound;

// The policy for a name that another client holds.
pub(crate) const FIRST_WINS: u32 = 0;

const LATEST_WINS: u32 = 1;

pub fn is_policy(policy: u32) -> bool
    ensures { Decides result (calls.KnownPolicy policy) }
{
    if policy == FIRST_WINS {
        return true;
    }
    policy == LATEST_WINS
}

// The first fault of a table and a name: 40, 9; 0 where there is none.
pub(crate) fn name_fault(table: &[u8], name: &[u8]) -> u32
    ensures { calls.Judged (calls.name_tests most_names table.now name.now) result }
{
    if !is_sound(table) {
        return TABLE_NOT_SOUND;
    }
    if !is_proper(name) {
        return NO_PROPER_NAME;
    }
    0
}

// The first fault of a client and its address: 15, 16; 0 where there is none.
pub fn client_fault(dhcid: &[u8], family: u32, address: &[u8]) -> u32
    ensures { calls.Judged (calls.client_tests dhcid.now family address.now) result }
{
    if !is_well_formed(dhcid) {
        return NOT_A_DHCID;
    }
    if address.len() != address_size(family_of(family)) {
        return ADDRESS_LENGTH;
    }
    0
}

// The first fault of the arguments of an add or a remove, whose settings are known or not: 12, 40, 9, 15, 16; 0 where there is none.
pub(crate) fn argument_fault(
    known: bool,
    table: &[u8],
    name: &[u8],
    dhcid: &[u8],
    family: u32,
    address: &[u8],
) -> u32
    ensures { calls.Judged (calls.argument_tests most_names (known ≡ true) table.now name.now dhcid.now family address.now) result }
{
    if !known {
        return UNKNOWN_SETTING;
    }
    let fault = name_fault(table, name);
    if fault != 0 {
        return fault;
    }
    client_fault(dhcid, family, address)
}
