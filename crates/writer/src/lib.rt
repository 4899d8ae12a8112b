// Writing one record as a line of a listing: owner, blank, type, blank, data, byte 10.
#![tactic(auto)]

ghost use Rattle.std.specs.Prelude.{◌≡◌, ◌+◌, ◌≤◌, length};
ghost use Rattle.base.specs.declared.Answer.TheVariants.{Refused};
ghost use Rattle.base.specs.Bytes.{overlay};
ghost use Rattle.base.specs.Refusal.{output_short};
ghost use Rattle.grammar.specs.Listing.{ResourceRecord};
ghost use Rattle.writer.specs.Line as spec;
ghost use Rattle.writer.specs.Parts as parts;

use address::{a_length, put_a, put_aaaa};
use base::Answer;
use base::refusal::OUTPUT_SHORT;
use base::slice::put;
use dhcid_text::put_base64;
use entry::{Record, TYPE_A, TYPE_AAAA};
use name_text::put_text;

// The longest line, a DHCID's: an owner of 254 bytes, a blank, 5 bytes of type, a blank, 48 bytes of data, and byte 10 (the theorem longest-line).
pub const LONGEST_LINE: usize = 310;

// How many bytes the data of every AAAA record and of every DHCID record are in text.
const AAAA_TEXT: usize = 39;

const DHCID_TEXT: usize = 48;

const LINE_END: u8 = 10;

// How many bytes blank, type and blank are.
fn type_length(rtype: u8) -> usize
    ensures { result ≡ length (parts.type_part rtype) }
{
    match rtype {
        TYPE_A => 3,
        TYPE_AAAA => 6,
        _ => 7,
    }
}

// How many bytes the data are in text.
fn data_length(rtype: u8, rdata: &[u8]) -> usize
    requires { length rdata.now ≡ 35 }
    ensures { result ≡ length (parts.rdata_part rtype rdata.now) }
{
    match rtype {
        TYPE_A => a_length(&rdata[..4]),
        TYPE_AAAA => AAAA_TEXT,
        _ => DHCID_TEXT,
    }
}

// How many bytes follow the owner.
pub fn rest_length(rtype: u8, rdata: &[u8]) -> usize
    requires { length rdata.now ≡ 35 }
    ensures { result ≡ length (parts.rest_part rtype rdata.now) }
{
    // byte 10 is one more
    type_length(rtype) + data_length(rtype, rdata) + 1
}

// How many bytes the line of a record has.
fn line_length(place: Record) -> usize
    requires { spec.Writable place }
    ensures { (r : ResourceRecord) → spec.Holds place r → result ≡ length (spec.line r) }
{
    // a name has one byte less in text
    place.owner_len as usize - 1 + rest_length(place.rtype, &place.rdata)
}

// Writes blank, type and blank.
fn put_type(to: &mut [u8], at: usize, rtype: u8)
    requires { at + length (parts.type_part rtype) ≤ length to.old }
    ensures { to.new ≡ overlay to.old at (parts.type_part rtype) }
{
    match rtype {
        TYPE_A => put(to, at, b" A "),
        TYPE_AAAA => put(to, at, b" AAAA "),
        _ => put(to, at, b" DHCID "),
    }
}

// Writes the data, and answers where they end.
fn put_data(to: &mut [u8], at: usize, rtype: u8, rdata: &[u8]) -> usize
    requires rdata_len { length rdata.now ≡ 35 }
    requires rdata_in_bounds { at + length (parts.rdata_part rtype rdata.now) ≤ length to.old }
    ensures value { result ≡ at + length (parts.rdata_part rtype rdata.now) }
    ensures to_after { to.new ≡ overlay to.old at (parts.rdata_part rtype rdata.now) }
{
    match rtype {
        TYPE_A => at + put_a(to, at, &rdata[..4]),
        TYPE_AAAA => {
            put_aaaa(to, at, &rdata[..16]);
            at + AAAA_TEXT
        }
        _ => {
            put_base64(to, at, rdata);
            at + DHCID_TEXT
        }
    }
}

// Writes what follows the owner: type, data and byte 10.
pub fn put_rest(to: &mut [u8], at: usize, rtype: u8, rdata: &[u8])
    requires rdata_len { length rdata.now ≡ 35 }
    requires rdata_in_bounds { at + length (parts.rest_part rtype rdata.now) ≤ length to.old }
    ensures { to.new ≡ overlay to.old at (parts.rest_part rtype rdata.now) }
{
    put_type(to, at, rtype);
    let end = put_data(to, at + type_length(rtype), rtype, rdata);
    to[end] = LINE_END;
}

// Writes the line of a record, for which there is room.
fn put_line(to: &mut [u8], at: usize, place: Record)
    requires bound { 1 ≤ place.owner_len }
    requires place_in_bounds { at + length (parts.line_of place) ≤ length to.old }
    ensures { to.new ≡ overlay to.old at (parts.line_of place) }
{
    let owner: &[u8] = &place.owner;
    let n = place.owner_len as usize;
    put_text(to, at, &owner[..n]);
    put_rest(to, at + n - 1, place.rtype, &place.rdata);
}

fn no_room() -> Answer
    ensures { result ≡ Refused output_short 0 }
{
    Answer::Refused {
        number: OUTPUT_SHORT,
        offset: 0,
    }
}

// Writes the line of a record into `to`, from index `at` on, and answers how many bytes that is; or 13, with `to` as it was, where it has no room.
pub fn put_record(to: &mut [u8], at: usize, place: Record) -> Answer
    requires { spec.Writable place }
    ensures value { (r : ResourceRecord) → spec.Holds place r → result ≡ spec.put_answer (spec.line r) at to.old }
    ensures to_after { (r : ResourceRecord) → spec.Holds place r → to.new ≡ spec.put_bytes (spec.line r) at to.old }
{
    let n = line_length(place);
    if to.len() < at {
        return no_room();
    }
    if to.len() - at < n {
        return no_room();
    }
    put_line(to, at, place);
    Answer::Accepted(n as u32)
}
