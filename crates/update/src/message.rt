// The four messages, each section written from where the last one ended. The owner of their records is the name in canonical form.
ghost use Rattle.std.specs.Prelude.{◌≡◌, ◌+◌, ◌*◌, ◌≤◌, length};
ghost use Rattle.base.specs.Bytes.{overlay};
ghost use Rattle.name.specs.Name.{canonical};
ghost use Rattle.update.specs.Message.{message_bytes};
ghost use Rattle.update.specs.Promise.{length_of, last_length};
ghost use Rattle.update.specs.Updates as spec;

use crate::Kind;
use crate::record::{ANY_TYPE, DHCID, IN, NONE, put_head, put_record};
use crate::section::{put_bare, put_entered, put_has, put_replaced};

fn put_add_first(
    out: &mut [u8],
    id: u16,
    zone: &[u8],
    owner: &[u8],
    dhcid: &[u8],
    rtype: u16,
    address: &[u8],
) -> usize
    requires zone_len_bound { length zone.now ≤ 255 }
    requires owner_len_bound { length owner.now ≤ 255 }
    requires dhcid_len { length dhcid.now ≡ 35 }
    requires address_len_bound { length address.now ≤ 16 }
    requires address_in_bounds { 81 + length zone.now + 3 * length owner.now + length address.now ≤ length out.old }
    ensures value { result ≡ 81 + length zone.now + 3 * length owner.now + length address.now }
    ensures out_after { out.new ≡ overlay out.old 0 (message_bytes (spec.add_first id (canonical zone.now) owner.now dhcid.now rtype address.now)) }
{
    let mut at = put_head(out, id, 1, 2, zone);
    at += put_record(&mut out[at..], owner, ANY_TYPE, NONE, 0, b"");
    at += put_entered(&mut out[at..], owner, dhcid, rtype, address);
    at
}

fn put_add_second(
    out: &mut [u8],
    id: u16,
    zone: &[u8],
    owner: &[u8],
    dhcid: &[u8],
    rtype: u16,
    address: &[u8],
) -> usize
    requires zone_len_bound { length zone.now ≤ 255 }
    requires owner_len_bound { length owner.now ≤ 255 }
    requires dhcid_len { length dhcid.now ≡ 35 }
    requires address_len_bound { length address.now ≤ 16 }
    requires address_in_bounds { 81 + length zone.now + 3 * length owner.now + length address.now ≤ length out.old }
    ensures value { result ≡ 81 + length zone.now + 3 * length owner.now + length address.now }
    ensures out_after { out.new ≡ overlay out.old 0 (message_bytes (spec.add_second id (canonical zone.now) owner.now dhcid.now rtype address.now)) }
{
    let mut at = put_head(out, id, 1, 2, zone);
    at += put_record(&mut out[at..], owner, DHCID, IN, 0, dhcid);
    at += put_replaced(&mut out[at..], owner, rtype, address);
    at
}

fn put_remove_first(
    out: &mut [u8],
    id: u16,
    zone: &[u8],
    owner: &[u8],
    dhcid: &[u8],
    rtype: u16,
    address: &[u8],
) -> usize
    requires zone_len_bound { length zone.now ≤ 255 }
    requires owner_len_bound { length owner.now ≤ 255 }
    requires dhcid_len { length dhcid.now ≡ 35 }
    requires address_len_bound { length address.now ≤ 16 }
    requires address_in_bounds { 81 + length zone.now + 3 * length owner.now + 2 * length address.now ≤ length out.old }
    ensures value { result ≡ 81 + length zone.now + 3 * length owner.now + 2 * length address.now }
    ensures out_after { out.new ≡ overlay out.old 0 (message_bytes (spec.remove_first id (canonical zone.now) owner.now dhcid.now rtype address.now)) }
{
    let mut at = put_head(out, id, 2, 1, zone);
    at += put_has(&mut out[at..], owner, dhcid, rtype, address);
    at += put_record(&mut out[at..], owner, rtype, NONE, 0, address);
    at
}

pub(crate) fn put_remove_second(
    out: &mut [u8],
    id: u16,
    zone: &[u8],
    owner: &[u8],
    dhcid: &[u8],
) -> usize
    requires zone_len_bound { length zone.now ≤ 255 }
    requires owner_len_bound { length owner.now ≤ 255 }
    requires dhcid_len { length dhcid.now ≡ 35 }
    requires owner_in_bounds { last_length (length zone.now) (length owner.now) ≤ length out.old }
    ensures value { result ≡ last_length (length zone.now) (length owner.now) }
    ensures out_after { out.new ≡ overlay out.old 0 (message_bytes (spec.remove_second id (canonical zone.now) owner.now dhcid.now)) }
{
    let mut at = put_head(out, id, 3, 1, zone);
    at += put_bare(&mut out[at..], owner, dhcid);
    at += put_record(&mut out[at..], owner, DHCID, NONE, 0, dhcid);
    at
}

// The message of that kind.
pub(crate) fn put_message(
    kind: Kind,
    out: &mut [u8],
    id: u16,
    zone: &[u8],
    owner: &[u8],
    dhcid: &[u8],
    rtype: u16,
    address: &[u8],
) -> usize
    requires zone_len_bound { length zone.now ≤ 255 }
    requires owner_len_bound { length owner.now ≤ 255 }
    requires dhcid_len { length dhcid.now ≡ 35 }
    requires address_len_bound { length address.now ≤ 16 }
    requires address_in_bounds { length_of kind (length zone.now) (length owner.now) (length address.now) ≤ length out.old }
    ensures { out.new ≡ overlay out.old 0 (message_bytes (spec.of_kind kind id (canonical zone.now) owner.now dhcid.now rtype address.now)) }
{
    match kind {
        Kind::AddFirst => put_add_first(out, id, zone, owner, dhcid, rtype, address),
        Kind::AddSecond => put_add_second(out, id, zone, owner, dhcid, rtype, address),
        Kind::RemoveFirst => put_remove_first(out, id, zone, owner, dhcid, rtype, address),
    }
}
