// The table of names as bytes: what a slot and a sound table are, by definitions and their laws. The functions over them are those of `slot`, `slot_change` and
// `slot_row`.
#![tactic(auto)]

ghost use Rattle.slots.specs.Entry.{FamilyNumbered};

// The family of an address: its record is an A or an AAAA.
#[derive(Clone, Copy, PartialEq, Eq, Debug)]
pub enum Family {
    V4,
    V6,
}

// A number that is no family's.
#[derive(Clone, Copy, PartialEq, Eq, Debug)]
pub struct UnknownFamily;

// The family of a number, as a call gives it.
impl TryFrom<u32> for Family {
    type Error = UnknownFamily;

    ghost try_from_gives = { FamilyNumbered };

    fn try_from(number: u32) -> Result<Family, UnknownFamily> {
        match number {
            4 => Ok(Family::V4),
            6 => Ok(Family::V6),
            _ => Err(UnknownFamily),
        }
    }
}

// Who holds a name, seen from one client: nobody, as it is kept by hand; that client; or another.
#[derive(Clone, Copy, PartialEq, Eq, Debug)]
pub enum Holding {
    ByHand,
    ByThis,
    ByAnother,
}

// What a remove comes to at a name that stands: it is refused with this number; it deletes the address, and the name stays with its other one; or it takes the
// name out, since no address would be left.
#[derive(Clone, Copy, PartialEq, Eq, Debug)]
pub enum Removal {
    Refused(u32),
    Address,
    Name,
}

// The type of a record that a slot holds.
#[derive(Clone, Copy, PartialEq, Eq, Debug)]
pub enum Rtype {
    A,
    Aaaa,
    Dhcid,
}
