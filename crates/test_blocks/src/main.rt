// The bytes of a block of each kind, and the refusals of the call that writes one, against their neighbours in the order. What must be printed, in the file `stdout`, was
// written before this program first ran, from document 02 (K5; docs/RULES.md, 11.1 and 11.3) and include/vichrelka.h ("The book of names"), with SHA-256 as Python's hashlib
// has it.
#![tactic(auto)]

use base::Answer;
use book_block::{KIND, write};
use harness::{Line, STDOUT, first, is_all, put_fitting, rest};

// What stands in an area before a call.
const OLD: u8 = 170;

const TABLE: usize = slot_row::SIZE;

fn print(bytes: &[u8]) {
    io::write_all(STDOUT, bytes);
}

fn print_line(line: Line) {
    let bytes = line.bytes;
    print(first(&bytes, line.len));
}

fn print_either(test: bool, yes: &[u8], no: &[u8]) {
    if test {
        print(yes);
    } else {
        print(no);
    }
}

fn part(bytes: &[u8], at: usize, n: usize) -> &[u8] {
    first(rest(bytes, at), n)
}

// The byte at an index, 0 behind the end.
fn byte_at(bytes: &[u8], at: usize) -> u8 {
    if at < bytes.len() { bytes[at] } else { 0 }
}

fn dhcid_of(client: u8) -> [u8; 35] {
    let mut dhcid = [client % 16 * 17; 35];
    dhcid[0] = 0;
    dhcid[1] = client % 3;
    dhcid[2] = 1;
    dhcid
}

// So many bytes of a block, from an index on.
fn with_field(line: Line, what: &[u8], block: &[u8], at: usize, n: usize) -> Line {
    line.text(what).hex(part(block, at, n))
}

// The fields of a block, and whether all other bytes are zeros.
fn print_block(block: &[u8]) {
    let size = byte_at(block, 5) as usize;
    let numbered = with_field(Line::begin(), b", 512 bytes: number ", block, 0, 4);
    let kinded = with_field(numbered, b" kind ", block, KIND, 1);
    let sized = with_field(kinded, b" length ", block, 5, 1);
    let named = with_field(sized, b" name ", block, 6, size);
    let flagged = with_field(named, b" flags ", block, 261, 1);
    let addressed = with_field(flagged, b" A ", block, 262, 4);
    let again = with_field(addressed, b" AAAA ", block, 266, 16);
    let held = with_field(again, b" DHCID ", block, 282, 35);
    print_line(with_field(held, b" check ", block, 480, 32));
    let padding = rest(part(block, 6, 255), size);
    let zeros = is_all(padding, 0) & is_all(part(block, 317, 163), 0);
    print_either(zeros, b", the others zeros", b", the others not zeros");
}

fn show_refusal(number: u32, lent: &[u8]) {
    print_line(Line::begin().text(b" refused ").number(number as u64));
    print_either(
        is_all(lent, OLD),
        b", all bytes as they were",
        b", bytes changed",
    );
}

// What is behind the first n bytes has to be as it was.
fn show_behind(area: &[u8], n: usize) {
    if !is_all(rest(area, n), OLD) {
        print(b", and more changed");
    }
}

// So much of an area is lent for the block.
fn block_into(table: &[u8], name: &[u8], number: u32, area: &mut [u8], room: usize) -> Answer {
    if area.len() < room {
        return Answer::Accepted(1);
    }
    write(table, name, number, &mut area[0..room])
}

// A label, and what is answered and left.
fn show(label: &[u8], table: &[u8], name: &[u8], number: u32, room: usize) {
    let mut area = [OLD; 1024];
    print(label);
    print(b"; block");
    match block_into(table, name, number, &mut area, room) {
        Answer::Accepted(value) => {
            print_block(first(&area, value as usize));
            show_behind(&area, value as usize);
        }
        Answer::Refused { number, offset: _ } => show_refusal(number, &area),
    }
    print(b"\n");
}

fn print_step(answer: Answer) {
    print_line(
        Line::begin()
            .text(b"; add ")
            .number(answer.for_c() / 4294967296),
    );
}

// A name of 255 bytes, labels of 63, 63, 63 and 61 letters.
fn long_name() -> [u8; 255] {
    let mut name = [b'a'; 255];
    name[0] = 63;
    name[64] = 63;
    name[128] = 63;
    name[192] = 61;
    name[254] = 0;
    name
}

fn show_not_sound(table: &[u8]) {
    show(
        b"block, 40 (the last byte of the table is 1) before 9",
        table,
        b"\x01!\x00",
        0,
        512,
    );
    show(b"block, 40 before 13", table, b"\x01a\x00", 0, 511);
}

fn show_sound(table: &[u8]) {
    show(b"block, 9 before 13", table, b"\x01!\x00", 0, 511);
    show(b"block, 9 alone", table, b"\x01!\x00", 0, 512);
    show(b"block, 13 alone", table, b"\x01a\x00", 0, 511);
}

fn main() {
    let mut table = [0u8; TABLE];
    let one = dhcid_of(1);
    print(b"the name a with all three records");
    print_step(table::add(&mut table, b"\x01a\x00", &one, 4, b"\xc0\x00\x02\x07", 0));
    print_step(table::add(
        &mut table,
        b"\x01a\x00",
        &one,
        6,
        b"\x20\x01\x0d\xb8\x00\x00\x00\x00\x00\x00\x00\x00\x00\x00\x00\x08",
        0,
    ));
    print(b"\n");
    show(b"its block under 0", &table, b"\x01a\x00", 0, 512);
    show(
        b"the same, asked for as A, under 16909060 and with more room",
        &table,
        b"\x01A\x00",
        16909060,
        1024,
    );
    show(
        b"the block of a name that is not there",
        &table,
        b"\x04Gone\x00",
        0,
        512,
    );
    // the second slot, by hand: length and name, the flag of A, and the address
    put_fitting(&mut table, 312, b"\x03\x01h\x00");
    put_fitting(&mut table, 568, b"\x01\xc0\x00\x02\x09");
    show(
        b"the name h with an A alone, kept by hand, and its block",
        &table,
        b"\x01h\x00",
        1,
        512,
    );
    let two = dhcid_of(2);
    let long = long_name();
    print(b"a name of 255 bytes with an AAAA, and its block");
    print_step(table::add(
        &mut table,
        &long,
        &two,
        6,
        b"\x20\x01\x0d\xb8\x00\x00\x00\x00\x00\x00\x00\x00\x00\x00\x00\x09",
        0,
    ));
    show(b"", &table, &long, 4294967295, 512);
    put_fitting(&mut table, TABLE - 1, &[1]);
    show_not_sound(&table);
    put_fitting(&mut table, TABLE - 1, &[0]);
    show_sound(&table);
}
