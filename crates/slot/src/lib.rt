// One slot of the table: the name's wire length, the name in 255 bytes, flags, A, AAAA, DHCID. What is absent is zeros. Is it well formed, and what does it hold?
#![tactic(auto)]

ghost use Rattle.std.specs.Prelude.{◌≡◌, ◌≤◌, length, take, drop};
ghost use Rattle.base.specs.Bytes.{eq_bytes};
ghost use Rattle.base.specs.Family.{KnownFamily};
ghost use Rattle.base.specs.Logic.{Decides};
ghost use Rattle.slots.specs.Effect.{deleted, has_address};
ghost use Rattle.slots.specs.Entry.{address_of, address_size, family_of, other};
ghost use Rattle.slots.specs.Fields.{in_field, there};
ghost use Rattle.slots.specs.Form.{IsSlot};
ghost use Rattle.slots.specs.Promise.{OfSlot, holding, is_address, removal};
ghost use Rattle.slots.specs.Promise as spec;
ghost use Rattle.slots.specs.SlotTests as tests;
ghost use Rattle.slots.specs.Sizes.{field_size, field_at, field_bit, address_type, body_size};

use base::dhcid::is_well_formed;
use base::refusal::{ADDRESS_DIFFERS, HELD_BY_ANOTHER, KEPT_BY_HAND};
use name::wire::is_canonical;
use octets::{are_zeros_at_once, same};
use slots::{Family, Holding, Removal, Rtype};

// How many bytes the three fields have.
const A_SIZE: usize = 4;

const AAAA_SIZE: usize = 16;

const DHCID_SIZE: usize = 35;

// Where the parts stand; the name's length is at 0.
pub const NAME: usize = 1;

pub const FLAGS: usize = 256;

const A: usize = FLAGS + 1;

const AAAA: usize = A + A_SIZE;

pub const DHCID: usize = AAAA + AAAA_SIZE;

// The six parts of a slot.
const BODY: usize = DHCID + DHCID_SIZE;

// The step from slot to slot: a slot has no other parts.
pub const SIZE: usize = BODY;

// The flags of the three.
const HAS_A: u8 = 1;

const HAS_AAAA: u8 = 2;

pub const HAS_DHCID: u8 = 4;

const ALL: u8 = HAS_A + HAS_AAAA + HAS_DHCID;

// Is this flag, of the value 1, 2 or 4, set?
pub fn is_set(bit: u8, flags: u8) -> bool
    requires { 1 ≤ bit }
    ensures { result ≡ spec.is_set bit flags }
{
    flags / bit % 2 == 1
}

// Is a field whose flag is not set nothing but zeros?
fn is_zero_unless_set(bit: u8, flags: u8, field: &[u8]) -> bool
    requires { 1 ≤ bit }
    ensures { Decides result (tests.ZeroUnlessSet bit flags field.now) }
{
    is_set(bit, flags) || are_zeros_at_once(field)
}

// Is this a name as a sound table has it, proper and in canonical form?
fn is_held_name(name: &[u8]) -> bool
    ensures { Decides result (tests.HeldName name.now) }
{
    is_canonical(name)
}

// Is this a name as a slot has it: its length, the name in 255 bytes, and nothing after it? The table's slots begin with one, and those of the reverse side end with one.
pub fn is_name_field(field: &[u8]) -> bool
    requires { length field.now ≡ 256 }
    ensures { Decides result (tests.NameField field.now) }
{
    let end = NAME + field[0] as usize;
    is_held_name(&field[NAME..end]) && are_zeros_at_once(&field[end..FLAGS])
}

// Do the flags and the fields agree?
fn are_fields(slot: &[u8]) -> bool
    requires { length slot.now ≡ body_size }
    ensures { Decides result (tests.FieldsIn slot.now) }
{
    let flags = slot[FLAGS];
    if flags == 0 || ALL < flags {
        return false;
    }
    let dhcid = &slot[DHCID..BODY];
    is_zero_unless_set(HAS_A, flags, &slot[A..AAAA])
        && is_zero_unless_set(HAS_AAAA, flags, &slot[AAAA..DHCID])
        && if is_set(HAS_DHCID, flags) {
            is_well_formed(dhcid)
        } else {
            are_zeros_at_once(dhcid)
        }
}

// Is this the slot of an entry that a sound table can have?
pub fn is_slot(slot: &[u8]) -> bool
    requires { length slot.now ≡ body_size }
    ensures { Decides result (IsSlot slot.now) }
{
    is_name_field(&slot[0..FLAGS]) && are_fields(slot)
}

// Who holds the name, seen from the client with this DHCID?
pub fn holding(slot: &[u8], dhcid: &[u8]) -> Holding
    requires { IsSlot slot.now }
    ensures { OfSlot slot.now (λ e. result ≡ holding eq_bytes e.holder dhcid.now) }
{
    if !is_set(HAS_DHCID, slot[FLAGS]) {
        return Holding::ByHand;
    }
    if same(&slot[DHCID..BODY], dhcid) {
        Holding::ByThis
    } else {
        Holding::ByAnother
    }
}

// Has the name this address?
pub fn has_address(slot: &[u8], family: Family, address: &[u8]) -> bool
    requires { IsSlot slot.now }
    ensures { OfSlot slot.now (λ e. result ≡ is_address (address_of family e) address.now) }
{
    let rtype = address_type(family);
    if !is_set(field_bit(rtype), slot[FLAGS]) {
        return false;
    }
    let at = field_offset(rtype);
    let end = at + field_size(rtype);
    same(&slot[at..end], address)
}

// Has the slot a record of this type?
pub fn has(slot: &[u8], rtype: Rtype) -> bool
    requires { IsSlot slot.now }
    ensures { OfSlot slot.now (λ e. result ≡ there (in_field rtype e)) }
{
    is_set(field_bit(rtype), slot[FLAGS])
}

// What does a remove of this address by the client with this DHCID come to? Nothing is written.
pub fn removal(slot: &[u8], dhcid: &[u8], family: Family, address: &[u8]) -> Removal
    requires { IsSlot slot.now }
    ensures { OfSlot slot.now (λ e. result ≡ removal (holding eq_bytes e.holder dhcid.now) (is_address (address_of family e) address.now) (has_address (deleted family e))) }
{
    let holder = holding(slot, dhcid);
    match holder {
        Holding::ByHand => Removal::Refused(KEPT_BY_HAND),
        Holding::ByThis => {
            if !has_address(slot, family, address) {
                return Removal::Refused(ADDRESS_DIFFERS);
            }
            // what is left is the other family's address, if the name has one
            if has(slot, address_type(other(family))) {
                Removal::Address
            } else {
                Removal::Name
            }
        }
        Holding::ByAnother => Removal::Refused(HELD_BY_ANOTHER),
    }
}

// The name in a used slot.
pub fn name_of(slot: &[u8]) -> &[u8]
    requires { IsSlot slot.now }
    ensures { OfSlot slot.now (λ e. result.now ≡ e.name) }
{
    let end = NAME + slot[0] as usize;
    &slot[NAME..end]
}

// 35 bytes from the first of a record's data on: all of a DHCID's, and of an address its own with what stands behind it.
pub fn data_from(slot: &[u8], rtype: Rtype) -> &[u8]
    requires { IsSlot slot.now }
    ensures { result.now ≡ take 35 (drop (field_at rtype) slot.now) }
{
    let from = field_offset(rtype);
    &slot[from..from + DHCID_SIZE]
}

// Is this number, as a call gives it, a family's?
pub fn is_family(family: u32) -> bool
    ensures { Decides result (KnownFamily family) }
{
    Family::try_from(family).is_ok()
}

// The family of a number: 4, or else 6.
pub fn family_of(family: u32) -> Family
    ensures { result ≡ family_of family }
{
    Family::try_from(family).unwrap_or(Family::V6)
}

// The other family.
pub fn other(family: Family) -> Family
    ensures { result ≡ other family }
{
    match family {
        Family::V4 => Family::V6,
        Family::V6 => Family::V4,
    }
}

// The type of the record that has a family's address.
pub fn address_type(family: Family) -> Rtype
    ensures { result ≡ address_type family }
{
    match family {
        Family::V4 => Rtype::A,
        Family::V6 => Rtype::Aaaa,
    }
}

// The bytes of a family's address.
pub fn address_size(family: Family) -> usize
    ensures { result ≡ address_size family }
{
    field_size(address_type(family))
}

// A type's flag.
pub fn field_bit(rtype: Rtype) -> u8
    ensures { result ≡ field_bit rtype }
{
    match rtype {
        Rtype::A => HAS_A,
        Rtype::Aaaa => HAS_AAAA,
        Rtype::Dhcid => HAS_DHCID,
    }
}

// Where a type's data stand.
pub fn field_offset(rtype: Rtype) -> usize
    ensures { result ≡ field_at rtype }
{
    match rtype {
        Rtype::A => A,
        Rtype::Aaaa => AAAA,
        Rtype::Dhcid => DHCID,
    }
}

// How many bytes a type's data have.
pub fn field_size(rtype: Rtype) -> usize
    ensures { result ≡ field_size rtype }
{
    match rtype {
        Rtype::A => A_SIZE,
        Rtype::Aaaa => AAAA_SIZE,
        Rtype::Dhcid => DHCID_SIZE,
    }
}
