// The calls that write a message: first everything is tested, and then it is written.
ghost use Rattle.std.specs.Prelude.{true, ◌≡◌, ◌≤◌, length};
ghost use Rattle.base.specs.Bytes.{overlay};
ghost use Rattle.base.specs.Logic.{Decides};
ghost use Rattle.name.specs.Name.{canonical};
ghost use Rattle.update.specs.Calls as calls;
ghost use Rattle.update.specs.Promise as spec;
ghost use Rattle.update.specs.Updates.{address_record};

use crate::Kind;
use crate::message::{put_message, put_remove_second};
use crate::record::{A, AAAA};
use base::Answer;
use base::dhcid::is_well_formed;
use base::refusal::{ADDRESS_LENGTH, NO_PROPER_NAME, NOT_A_DHCID, OUTPUT_SHORT, UNKNOWN_SETTING};
use name::wire::{LONGEST, is_canonical, is_within, put_canonical};
use slot::{address_size, family_of, is_family};
use slots::Family;

// The type of the record that has a family's address.
fn address_record(family: Family) -> u16
    ensures { result ≡ address_record family }
{
    match family {
        Family::V4 => A,
        Family::V6 => AAAA,
    }
}

// Is this a proper name in canonical form, and the zone its last labels?
fn is_placed(owner: &[u8], zone: &[u8]) -> bool
    requires { 1 ≤ length zone.now }
    ensures { Decides result (spec.Placed owner.now zone.now) }
{
    if !is_canonical(owner) {
        return false;
    }
    is_within(owner, zone)
}

// The fewest bytes of a proper name's zone: a label, and the zero byte behind it. The root has one.
const SHORTEST: usize = 2;

// Refusal 9's test: name and zone are proper, and the zone is the name's last labels. Where it passes, `room` begins with the name in canonical form, by which the
// name is tested: a name is proper if its canonical form is. And what is a proper name's last labels is proper, unless it is the root.
fn is_in_zone(room: &mut [u8], name: &[u8], zone: &[u8]) -> bool
    requires { length room.old ≡ 255 }
    ensures decides { Decides result (calls.InZone name.now zone.now) }
    ensures room_after { result ≡ true → room.new ≡ overlay room.old 0 (canonical name.now) }
{
    if LONGEST < name.len() {
        return false;
    }
    if zone.len() < SHORTEST {
        return false;
    }
    put_canonical(room, 0, name);
    is_placed(&room[..name.len()], zone)
}

// How many bytes the message of that kind has, for a zone, a name and an address of so many.
fn message_length(kind: Kind, zone: usize, name: usize, address: usize) -> usize
    requires zone_bound { zone ≤ 255 }
    requires name_bound { name ≤ 255 }
    requires address_bound { address ≤ 16 }
    ensures { result ≡ spec.length_of kind zone name address }
{
    match kind {
        Kind::AddFirst => 81 + zone + 3 * name + address,
        Kind::AddSecond => 81 + zone + 3 * name + address,
        Kind::RemoveFirst => 81 + zone + 3 * name + 2 * address,
    }
}

// Writes the message of that kind from the first byte of `out` on, and answers how many bytes it has. Refusals: 12, 9, 15, 16, 13.
pub fn write(
    kind: Kind,
    id: u16,
    zone: &[u8],
    name: &[u8],
    dhcid: &[u8],
    family: u32,
    address: &[u8],
    out: &mut [u8],
) -> Answer
    ensures { calls.Writes kind id zone.now name.now dhcid.now family address.now out.old result out.new }
{
    if !is_family(family) {
        return Answer::refused(UNKNOWN_SETTING);
    }
    let mut room = [0u8; LONGEST];
    if !is_in_zone(&mut room, name, zone) {
        return Answer::refused(NO_PROPER_NAME);
    }
    if !is_well_formed(dhcid) {
        return Answer::refused(NOT_A_DHCID);
    }
    let version = family_of(family);
    if address.len() != address_size(version) {
        return Answer::refused(ADDRESS_LENGTH);
    }
    let len = message_length(kind, zone.len(), name.len(), address.len());
    if out.len() < len {
        return Answer::refused(OUTPUT_SHORT);
    }
    put_message(
        kind,
        out,
        id,
        zone,
        &room[..name.len()],
        dhcid,
        address_record(version),
        address,
    );
    Answer::Accepted(len as u32)
}

// Writes the second message of a remove, which names no address. Refusals: 9, 15, 13.
pub fn write_last(id: u16, zone: &[u8], name: &[u8], dhcid: &[u8], out: &mut [u8]) -> Answer
    ensures { calls.WritesLast id zone.now name.now dhcid.now out.old result out.new }
{
    let mut room = [0u8; LONGEST];
    if !is_in_zone(&mut room, name, zone) {
        return Answer::refused(NO_PROPER_NAME);
    }
    if !is_well_formed(dhcid) {
        return Answer::refused(NOT_A_DHCID);
    }
    let len = 126 + zone.len() + 4 * name.len();
    if out.len() < len {
        return Answer::refused(OUTPUT_SHORT);
    }
    put_remove_second(out, id, zone, &room[..name.len()], dhcid);
    Answer::Accepted(len as u32)
}
