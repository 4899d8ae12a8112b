// A lease and its end, over the table and the reverse side. A call decides first and writes last, so a refused one has written nothing. A lease writes the table
// and then the reverse side, its end the other way round: between the two steps no address has this name behind it that the name lacks.
#![tactic(auto)]

ghost use Rattle.std.specs.Prelude.{true, ◌≡◌, ◌<◌, length};
ghost use Rattle.base.specs.Dhcid.{well_formed};
ghost use Rattle.name.specs.Name.{Proper, canonical};
ghost use Rattle.slots.specs.Entry.{address_size};
ghost use Rattle.slots.specs.Form.{Sound};
ghost use Rattle.slots.specs.Sizes.{most_names};
ghost use Rattle.table.specs.Calls.{Judged};
ghost use Rattle.reverse.specs.Entry.{placed};
ghost use Rattle.reverse.specs.Form.{reverse_bytes, SoundReverse};
ghost use Rattle.reverse.specs.Promise.{OfReverse, place};
ghost use Rattle.reverse.specs.Sizes.{most_addresses};
ghost use Rattle.leases.specs.Calls as calls;
ghost use Rattle.leases.specs.Plan as plan;
ghost use Rattle.lease_calls.specs.Promise as spec;

use base::Answer;
use base::refusal::{NO_PROPER_NAME, REVERSE_FULL, TABLE_NOT_SOUND, UNKNOWN_SETTING};
use name::wire::is_proper;
use slot::{family_of, is_family};
use slots::Family;
use table::arguments::{client_fault, is_policy};
use table::step;
use table::step::RemovalFor;

// The first fault of both sides and of the arguments of a lease or its end, whose settings are known or not: 12, 40, 9, 15, 16; 0 where there is none.
fn sides_fault(
    known: bool,
    table: &[u8],
    reverse: &[u8],
    name: &[u8],
    dhcid: &[u8],
    family: u32,
    address: &[u8],
) -> u32
    ensures { Judged (calls.sides_tests most_names most_addresses (known ≡ true) table.now reverse.now name.now dhcid.now family address.now) result }
{
    if !known {
        return UNKNOWN_SETTING;
    }
    if !slot_row::is_sound(table) {
        return TABLE_NOT_SOUND;
    }
    if !reverse_row::is_sound(reverse) {
        return TABLE_NOT_SOUND;
    }
    if !is_proper(name) {
        return NO_PROPER_NAME;
    }
    client_fault(dhcid, family, address)
}

// The reverse step of a lease: the name behind its address, in slot i, if the add was accepted.
fn reverse_step(
    reverse: &mut [u8],
    i: usize,
    name: &[u8],
    family: Family,
    address: &[u8],
    added: Answer,
)
    requires { (SoundReverse most_addresses reverse.old) × (Proper name.now) × (length address.now ≡ address_size family) × (i < most_addresses) }
    ensures { OfReverse most_addresses reverse.old (λ rs. i ≡ place family address.now rs → reverse.new ≡ reverse_bytes most_addresses (spec.behind_add added (placed family address.now (canonical name.now) rs) rs)) }
{
    match added {
        Answer::Accepted(_) => reverse_row::put_behind(reverse, i, family, address, name),
        Answer::Refused { .. } => {}
    }
}

// A lease on sound sides, with sound arguments: 46, then the forward step, then the reverse step.
fn lease_steps(
    table: &mut [u8],
    reverse: &mut [u8],
    name: &[u8],
    dhcid: &[u8],
    family: Family,
    address: &[u8],
    policy: u32,
) -> Answer
    requires { (Sound most_names table.old) × (SoundReverse most_addresses reverse.old) × (Proper name.now) × (well_formed dhcid.now ≡ true) × (length address.now ≡ address_size family) }
    ensures { spec.OfSides most_names most_addresses table.old reverse.old (λ t rs. spec.CarriedOut most_names most_addresses (plan.lease_plan most_names most_addresses (canonical name.now) dhcid.now family address.now policy) t rs result table.new reverse.new) }
{
    let i = reverse_row::find(reverse, family, address);
    if i == reverse_row::SLOTS {
        return Answer::refused(REVERSE_FULL);
    }
    let added = step::add(table, name, dhcid, family, address, policy);
    reverse_step(reverse, i, name, family, address, added);
    added
}

// An ended lease on sound sides, with sound arguments: nothing where a remove would be refused; else the reverse step, then the forward step.
fn end_steps(
    table: &mut [u8],
    reverse: &mut [u8],
    name: &[u8],
    dhcid: &[u8],
    family: Family,
    address: &[u8],
) -> Answer
    requires { (Sound most_names table.old) × (SoundReverse most_addresses reverse.old) × (Proper name.now) × (length address.now ≡ address_size family) }
    ensures { spec.OfSides most_names most_addresses table.old reverse.old (λ t rs. spec.CarriedOut most_names most_addresses (plan.end_plan (canonical name.now) dhcid.now family address.now) t rs result table.new reverse.new) }
{
    let removal = step::removal_for(table, name, dhcid, family, address);
    match removal {
        RemovalFor::Refused(number) => return Answer::refused(number),
        RemovalFor::Address(_) => {}
        RemovalFor::Name(_) => {}
    }
    reverse_row::take_out(reverse, family, address, name);
    step::carry_out(table, removal, family)
}

// Gives the name to the client with this DHCID, with its address, as `table::add` does, and puts the name behind the address. Answers what the add does. Refusals:
// 12, 40, 9, 15, 16, 46, then 31, 30 or 32.
pub fn lease(
    table: &mut [u8],
    reverse: &mut [u8],
    name: &[u8],
    dhcid: &[u8],
    family: u32,
    address: &[u8],
    policy: u32,
) -> Answer
    ensures { calls.Leases most_names most_addresses table.old reverse.old name.now dhcid.now family address.now policy result table.new reverse.new }
{
    let known = is_family(family) & is_policy(policy);
    let fault = sides_fault(known, table, reverse, name, dhcid, family, address);
    if fault != 0 {
        return Answer::refused(fault);
    }
    lease_steps(
        table,
        reverse,
        name,
        dhcid,
        family_of(family),
        address,
        policy,
    )
}

// Takes the name from behind the address, if it is the one there, and deletes the address as `table::remove` does. Answers 0. Refusals: 12, 40, 9, 15, 16, 33, 31, 30,
// 34.
pub fn end(
    table: &mut [u8],
    reverse: &mut [u8],
    name: &[u8],
    dhcid: &[u8],
    family: u32,
    address: &[u8],
) -> Answer
    ensures { calls.Ends most_names most_addresses table.old reverse.old name.now dhcid.now family address.now result table.new reverse.new }
{
    let fault = sides_fault(
        is_family(family),
        table,
        reverse,
        name,
        dhcid,
        family,
        address,
    );
    if fault != 0 {
        return Answer::refused(fault);
    }
    end_steps(table, reverse, name, dhcid, family_of(family), address)
}
