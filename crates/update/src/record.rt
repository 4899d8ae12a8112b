// One record, and what stands before the records. Each writer starts at the first byte of what it is lent, and answers how many bytes it wrote.
ghost use Rattle.std.specs.Prelude.{◌≡◌, [], ◌∷◌, ◌++◌, ◌+◌, ◌≤◌, length};
ghost use Rattle.base.specs.Bytes.{overlay};
ghost use Rattle.name.specs.Name.{canonical};
ghost use Rattle.update.specs.Message as spec;
ghost use Rattle.update.specs.Updates.{the_zone};

use base::slice::put;
use name::wire::put_canonical;

// Types and classes, by their numbers.
pub(crate) const A: u16 = 1;

pub(crate) const AAAA: u16 = 28;

pub(crate) const DHCID: u16 = 49;

pub(crate) const ANY_TYPE: u16 = 255;

pub(crate) const IN: u16 = 1;

pub(crate) const NONE: u16 = 254;

pub(crate) const ANY: u16 = 255;

// The lifetime of what is added, in seconds.
pub(crate) const LIFETIME: u32 = 3600;

// What stands between a record's owner and its data.
fn fixed(rtype: u16, class: u16, ttl: u32, len: u16) -> [u8; 10]
    ensures { result ≡ spec.fixed_bytes rtype class ttl len }
{
    [
        ((rtype >> 8) % 256) as u8,
        (rtype % 256) as u8,
        ((class >> 8) % 256) as u8,
        (class % 256) as u8,
        ((ttl >> 24) % 256) as u8,
        ((ttl >> 16) % 256) as u8,
        ((ttl >> 8) % 256) as u8,
        (ttl % 256) as u8,
        ((len >> 8) % 256) as u8,
        (len % 256) as u8,
    ]
}

pub(crate) fn put_record(
    to: &mut [u8],
    owner: &[u8],
    rtype: u16,
    class: u16,
    ttl: u32,
    rdata: &[u8],
) -> usize
    requires rdata_in_bounds { length owner.now + 10 + length rdata.now ≤ length to.old }
    requires owner_len_bound { length owner.now ≤ 255 }
    requires rdata_len_bound { length rdata.now ≤ 35 }
    ensures value { result ≡ length owner.now + 10 + length rdata.now }
    ensures to_after { to.new ≡ overlay to.old 0 (spec.rr_bytes (record { owner = owner.entry.now; rtype = rtype; class = class; ttl = ttl; rdata = rdata.now })) }
{
    let n = owner.len();
    put(to, 0, owner);
    let middle = fixed(rtype, class, ttl, rdata.len() as u16);
    put(to, n, &middle);
    put(to, n + 10, rdata);
    n + 10 + rdata.len()
}

// The header of a message with one zone and nothing additional: QR 0 and opcode 5.
fn header(id: u16, prerequisites: u8, updates: u8) -> [u8; 12]
    ensures { result ≡ spec.header_bytes id 1 prerequisites updates 0 }
{
    [
        ((id >> 8) % 256) as u8,
        (id % 256) as u8,
        40,
        0,
        0,
        1,
        0,
        prerequisites,
        0,
        updates,
        0,
        0,
    ]
}

// Writes the header, and the zone section: the zone, SOA, IN.
pub(crate) fn put_head(to: &mut [u8], id: u16, prerequisites: u8, updates: u8, zone: &[u8]) -> usize
    requires zone_in_bounds { length zone.now + 16 ≤ length to.old }
    requires zone_len_bound { length zone.now ≤ 255 }
    ensures value { result ≡ length zone.now + 16 }
    ensures to_after { to.new ≡ overlay to.old 0 (spec.header_bytes id 1 prerequisites updates 0 ++ spec.zone_bytes (the_zone (canonical zone.now) ∷ [])) }
{
    let n = zone.len();
    let start = header(id, prerequisites, updates);
    put(to, 0, &start);
    put_canonical(to, 12, zone);
    put(to, n + 12, b"\x00\x06\x00\x01");
    n + 16
}
