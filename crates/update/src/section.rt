// The sections of more than one record, each record written from where the last one ended.
ghost use Rattle.std.specs.Prelude.{◌≡◌, [], ◌∷◌, ◌+◌, ◌*◌, ◌≤◌, length};
ghost use Rattle.base.specs.Bytes.{overlay};
ghost use Rattle.update.specs.Message as spec;
ghost use Rattle.update.specs.Message.{type_a, type_aaaa, type_dhcid};
ghost use Rattle.update.specs.Updates.{added, set_is, no_set, set_deleted};

use crate::record::{A, AAAA, ANY, DHCID, IN, LIFETIME, NONE, put_record};

// The address and the DHCID, added: the updates of a first add.
pub(crate) fn put_entered(
    to: &mut [u8],
    owner: &[u8],
    dhcid: &[u8],
    rtype: u16,
    address: &[u8],
) -> usize
    requires owner_len_bound { length owner.now ≤ 255 }
    requires dhcid_len { length dhcid.now ≡ 35 }
    requires address_len_bound { length address.now ≤ 16 }
    requires address_in_bounds { 2 * length owner.now + 55 + length address.now ≤ length to.old }
    ensures value { result ≡ 2 * length owner.now + 55 + length address.now }
    ensures to_after { to.new ≡ overlay to.old 0 (spec.section_bytes (added owner.now rtype address.now ∷ added owner.now type_dhcid dhcid.now ∷ [])) }
{
    let mut at = put_record(to, owner, rtype, IN, LIFETIME, address);
    at += put_record(&mut to[at..], owner, DHCID, IN, LIFETIME, dhcid);
    at
}

// The addresses of a type deleted, and then one added: the updates of a second add.
pub(crate) fn put_replaced(to: &mut [u8], owner: &[u8], rtype: u16, address: &[u8]) -> usize
    requires owner_len_bound { length owner.now ≤ 255 }
    requires address_len_bound { length address.now ≤ 16 }
    requires address_in_bounds { 2 * length owner.now + 20 + length address.now ≤ length to.old }
    ensures value { result ≡ 2 * length owner.now + 20 + length address.now }
    ensures to_after { to.new ≡ overlay to.old 0 (spec.section_bytes (set_deleted owner.now rtype ∷ added owner.now rtype address.now ∷ [])) }
{
    let mut at = put_record(to, owner, rtype, ANY, 0, b"");
    at += put_record(&mut to[at..], owner, rtype, IN, LIFETIME, address);
    at
}

// The DHCID and the address are just these: the prerequisites of a first remove.
pub(crate) fn put_has(
    to: &mut [u8],
    owner: &[u8],
    dhcid: &[u8],
    rtype: u16,
    address: &[u8],
) -> usize
    requires owner_len_bound { length owner.now ≤ 255 }
    requires dhcid_len { length dhcid.now ≡ 35 }
    requires address_len_bound { length address.now ≤ 16 }
    requires address_in_bounds { 2 * length owner.now + 55 + length address.now ≤ length to.old }
    ensures value { result ≡ 2 * length owner.now + 55 + length address.now }
    ensures to_after { to.new ≡ overlay to.old 0 (spec.section_bytes (set_is owner.now type_dhcid dhcid.now ∷ set_is owner.now rtype address.now ∷ [])) }
{
    let mut at = put_record(to, owner, DHCID, IN, 0, dhcid);
    at += put_record(&mut to[at..], owner, rtype, IN, 0, address);
    at
}

// The DHCID is just this, and there is no address: the prerequisites of a second remove.
pub(crate) fn put_bare(to: &mut [u8], owner: &[u8], dhcid: &[u8]) -> usize
    requires owner_len_bound { length owner.now ≤ 255 }
    requires dhcid_len { length dhcid.now ≡ 35 }
    requires owner_in_bounds { 3 * length owner.now + 65 ≤ length to.old }
    ensures value { result ≡ 3 * length owner.now + 65 }
    ensures to_after { to.new ≡ overlay to.old 0 (spec.section_bytes (set_is owner.now type_dhcid dhcid.now ∷ no_set owner.now type_a ∷ no_set owner.now type_aaaa ∷ [])) }
{
    let mut at = put_record(to, owner, DHCID, IN, 0, dhcid);
    at += put_record(&mut to[at..], owner, A, NONE, 0, b"");
    at += put_record(&mut to[at..], owner, AAAA, NONE, 0, b"");
    at
}
