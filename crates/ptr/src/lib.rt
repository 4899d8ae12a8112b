// The PTR name of an address.
#![tactic(auto)]

ghost use Rattle.std.specs.Prelude.{◌≡◌, ◌+◌, ◌/◌, ◌%◌, ◌≤◌, [], ◌∷◌, length};
ghost use Rattle.base.specs.Bytes.{overlay};
ghost use Rattle.slots.specs.Entry.{address_size};
ghost use Rattle.slots.specs.declared.Family.TheVariants.{V4, V6};
ghost use Rattle.text.specs.Digits.{hex_digit};
ghost use Rattle.ptr.specs.Ptr as spec;

use base::Answer;
use base::refusal::{ADDRESS_LENGTH, OUTPUT_SHORT, UNKNOWN_SETTING};
use base::slice::put;
use slot::{address_size, family_of, is_family};
use slots::Family;
use text::digit::{DecimalByte, decimal, hex_digit};

// How many bytes the labels in-addr and arpa have, and the zero byte that ends a name.
const IN_ADDR_ARPA: usize = 14;

// How many bytes the name of any IPv6 address has: 32 labels of one digit, ip6 and arpa.
const IP6_NAME: usize = 74;

// How many bytes the name of an IPv4 address has.
fn in_addr_length(address: &[u8]) -> usize
    requires { length address.now ≡ 4 }
    ensures { result ≡ length (spec.ptr_name V4 address.now) }
{
    let mut n = IN_ADDR_ARPA;
    for b in address {
        n += 1 + decimal(*b).len;
    }
    n
}

// How many bytes the name of an address has.
fn name_length(family: Family, address: &[u8]) -> usize
    requires { length address.now ≡ address_size family }
    ensures { result ≡ length (spec.ptr_name family address.now) }
{
    match family {
        Family::V4 => in_addr_length(address),
        Family::V6 => IP6_NAME,
    }
}

// Writes a label after its length, from index `at` on.
fn put_label(to: &mut [u8], at: usize, label: &[u8])
    requires label_len_bound { length label.now ≤ 63 }
    requires label_in_bounds { at + 1 + length label.now ≤ length to.old }
    ensures { to.new ≡ overlay to.old at (length label.now ∷ label.now) }
{
    to[at] = label.len() as u8;
    put(to, at + 1, label);
}

// Writes the name of an IPv4 address: from the last byte to the first, each a label.
fn put_in_addr(out: &mut [u8], address: &[u8])
    requires { length (spec.ptr_name V4 address.now) ≤ length out.old }
    ensures { out.new ≡ overlay out.old 0 (spec.ptr_name V4 address.now) }
{
    let mut end: usize = 0;
    for octet in address.iter().rev() {
        let DecimalByte { digits, len } = decimal(*octet);
        put_label(out, end, &digits[..len]);
        end += 1 + len;
    }
    put(out, end, b"\x07in-addr\x04arpa\x00");
}

// Writes the two nibbles of a byte, the low one first, each a label.
fn put_nibbles(to: &mut [u8], at: usize, b: u8)
    requires { at + 4 ≤ length to.old }
    ensures { to.new ≡ overlay to.old at (1 ∷ hex_digit (b % 16) ∷ 1 ∷ hex_digit (b / 16) ∷ []) }
{
    to[at] = 1;
    to[at + 1] = hex_digit(b % 16);
    to[at + 2] = 1;
    to[at + 3] = hex_digit(b / 16);
}

// Writes the name of an IPv6 address: from the last byte to the first, each two labels.
fn put_ip6(out: &mut [u8], address: &[u8])
    requires { length (spec.ptr_name V6 address.now) ≤ length out.old }
    ensures { out.new ≡ overlay out.old 0 (spec.ptr_name V6 address.now) }
{
    let mut end: usize = 0;
    for b in address.iter().rev() {
        put_nibbles(out, end, *b);
        end += 4;
    }
    put(out, end, b"\x03ip6\x04arpa\x00");
}

// Writes the name of an address.
fn put_name(out: &mut [u8], family: Family, address: &[u8])
    requires { length (spec.ptr_name family address.now) ≤ length out.old }
    ensures { out.new ≡ overlay out.old 0 (spec.ptr_name family address.now) }
{
    match family {
        Family::V4 => put_in_addr(out, address),
        Family::V6 => put_ip6(out, address),
    }
}

// Writes the PTR name of an address into `out`, in wire form and in lower case, and answers how many bytes it has. Refusals: 12, 16, 13.
pub fn write(family: u32, address: &[u8], out: &mut [u8]) -> Answer
    ensures { spec.PtrWritten family address.now out.old result out.new }
{
    if !is_family(family) {
        return Answer::refused(UNKNOWN_SETTING);
    }
    let version = family_of(family);
    if address.len() != address_size(version) {
        return Answer::refused(ADDRESS_LENGTH);
    }
    let len = name_length(version, address);
    if out.len() < len {
        return Answer::refused(OUTPUT_SHORT);
    }
    put_name(out, version, address);
    Answer::Accepted(len as u32)
}
