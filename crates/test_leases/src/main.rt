// PTR names, leases and ended leases over both sides, their refusals, and every power cut. Each line of the input that begins with a blank is a command, the
// others say what it is about:
//
//     p F R ADDRESS            the PTR name of the address, of family F, into R bytes
//     l C F P NAME ADDRESS     a lease: the client, the family, the policy, the name and the address
//     e C F - NAME ADDRESS     an ended lease
//     s COMMAND                one of these two, with the last byte of the reverse side missing
//     t S I BYTES              these bytes are put into the table, from byte I of slot S on; r is the same of the reverse side
//     f N                      leases with the addresses 10.0.0.0, 10.0.0.1 and so on, N of them, the names n00 to n61 in turn, client 01
//
// R, C, S, I and N are two hexadecimal digits; an address and bytes are in hexadecimal too, and - is none. A name is one label. Client 12 has the DHCID of type 1
// and 32 bytes 22; one of type 3 has none. The table holds at first the name h, kept by hand.
//
// Each line of the output is that of the input and what is answered. After a refused call all bytes of both sides are compared with those before it. After an
// accepted one the same is run again on copies of what a power cut leaves: nothing done, the first step alone (of a lease the new table and the old reverse side, of
// an end the old table and the new reverse side), both. Each answer is printed, and whether both sides are then the same as after the uncut run. Then come the names
// with their flags (1 for an A, 2 for an AAAA, 4 for a DHCID), A, AAAA and the first bytes of the DHCID, where - is zeros alone, and the addresses with family and
// name; of a long side those from the seventh to the last but one are a dot each. What must be printed, in the file `stdout`, was written before this program first
// ran, from document 02 (K7, and K1 for what a remove leaves), document 01 ("The table"; docs/RULES.md, 7), RFC 1035 (3.5) and RFC 3596 (2.5), and for the bytes of
// the reverse side from include/vichrelka.h ("The reverse side").
#![tactic(auto)]

use base::Answer;
use check::same;
use harness::{Line, STDIN, STDOUT, find, first, is_all, put_fitting, rest};
use lease_calls::{end, lease};
use name_text::put_text;
use text::digit::digit_value;

// No fewer bytes than the input has.
const INPUT: usize = 8192;

// What stands in an area before a call.
const OLD: u8 = 170;

const TABLE: usize = slot_row::SIZE;

const REVERSE: usize = reverse_row::SIZE;

// The bytes of a slot of the reverse side.
const REVERSE_SLOT: usize = REVERSE / reverse_row::SLOTS;

fn print(bytes: &[u8]) {
    io::write_all(STDOUT, bytes);
}

fn print_line(line: Line) {
    let bytes = line.bytes;
    print(first(&bytes, line.len));
}

fn print_number(before: &[u8], number: u32, behind: &[u8]) {
    print_line(
        Line::begin()
            .text(before)
            .number(number as u64)
            .text(behind),
    );
}

fn part(bytes: &[u8], at: usize, n: usize) -> &[u8] {
    first(rest(bytes, at), n)
}

// The byte at an index, 0 behind the end.
fn byte_at(bytes: &[u8], at: usize) -> u8 {
    if at < bytes.len() { bytes[at] } else { 0 }
}

fn byte(high: u8, low: u8) -> u8 {
    digit_value(high) % 16 * 16 + digit_value(low) % 16
}

// The byte that a word begins with, in two digits.
fn byte_of(word: &[u8]) -> u8 {
    byte(byte_at(word, 0), byte_at(word, 1))
}

// Puts the bytes that the word has two digits each for into `out`, as far as there is room, and answers how many there are.
fn make(word: &[u8], out: &mut [u8]) -> usize {
    let mut n: usize = 0;
    let mut i: usize = 1;
    while i < word.len() {
        n = put_fitting(out, n, &[byte(word[i - 1], word[i])]);
        i += 2;
    }
    n
}

// Puts the name that a word stands for into `out`, and answers how many bytes it has.
fn put_name(word: &[u8], out: &mut [u8]) -> usize {
    let size = (word.len() % 64) as u8;
    let start = put_fitting(out, 0, &[size]);
    let end = put_fitting(out, start, word);
    put_fitting(out, end, &[0])
}

fn dhcid_of(client: u8) -> [u8; 35] {
    let mut dhcid = [client % 16 * 17; 35];
    dhcid[0] = 0;
    dhcid[1] = client / 16;
    dhcid[2] = 1;
    dhcid
}

fn show_refusal(number: u32, unchanged: bool) {
    print_number(b" refused ", number, b"");
    if unchanged {
        print(b", all bytes as they were");
    } else {
        print(b", bytes changed");
    }
}

fn show_ptr(name: &[u8], behind: &[u8]) {
    let mut text = [0u8; 100];
    put_text(&mut text, 0, first(name, 100));
    print_number(b" ", (name.len() % 256) as u32, b" bytes, ");
    // behind the text there are zeros
    print(first(&text, find(&text, 0, 0)));
    if !is_all(behind, OLD) {
        print(b", and more changed");
    }
}

// No line of the input asks for more room than there is.
fn ptr_into(family: u32, address: &[u8], area: &mut [u8], room: usize) -> Answer {
    if area.len() < room {
        return Answer::Accepted(1);
    }
    ptr::write(family, address, &mut area[0..room])
}

fn run_ptr(command: &[u8]) {
    let mut address = [0u8; 32];
    let n = make(rest(command, 7), &mut address);
    let family = digit_value(byte_at(command, 2)) as u32;
    let room = byte_of(rest(command, 4)) as usize;
    let mut area = [OLD; 100];
    print(b";");
    match ptr_into(family, first(&address, n), &mut area, room) {
        Answer::Accepted(value) => {
            show_ptr(first(&area, value as usize), rest(&area, value as usize))
        }
        Answer::Refused { number, offset: _ } => show_refusal(number, is_all(&area, OLD)),
    }
}

fn answer_with(
    command: &[u8],
    table: &mut [u8],
    reverse: &mut [u8],
    name: &[u8],
    address: &[u8],
) -> Answer {
    let dhcid = dhcid_of(byte_of(rest(command, 2)));
    let family = digit_value(byte_at(command, 5)) as u32;
    if byte_at(command, 0) == b'e' {
        return end(table, reverse, name, &dhcid, family, address);
    }
    let policy = digit_value(byte_at(command, 7)) as u32;
    lease(table, reverse, name, &dhcid, family, address, policy)
}

fn answer_of(command: &[u8], table: &mut [u8], reverse: &mut [u8]) -> Answer {
    let words = rest(command, 9);
    let blank = find(words, 0, b' ');
    let mut name = [0u8; 32];
    let mut address = [0u8; 32];
    let n = put_name(first(words, blank), &mut name);
    let m = make(rest(words, blank + 1), &mut address);
    answer_with(command, table, reverse, first(&name, n), first(&address, m))
}

fn print_answer(answer: Answer) {
    match answer {
        Answer::Accepted(value) => print_number(b" ", value, b""),
        Answer::Refused { number, offset: _ } => print_number(b" refused ", number, b""),
    }
}

// The call on copies of two sides that a cut has left, and the comparison with both sides of the uncut run.
fn run_again(command: &[u8], table_left: &[u8], reverse_left: &[u8], table: &[u8], reverse: &[u8]) {
    let mut forward = [0u8; TABLE];
    let mut back = [0u8; REVERSE];
    put_fitting(&mut forward, 0, table_left);
    put_fitting(&mut back, 0, reverse_left);
    print_answer(answer_of(command, &mut forward, &mut back));
    if same(&forward, table) & same(&back, reverse) {
        print(b" same");
    } else {
        print(b" other");
    }
}

fn run_cuts(
    command: &[u8],
    table_before: &[u8],
    reverse_before: &[u8],
    table: &[u8],
    reverse: &[u8],
) {
    print(b"; cut and again:");
    run_again(command, table_before, reverse_before, table, reverse);
    print(b",");
    if byte_at(command, 0) == b'e' {
        run_again(command, table_before, reverse, table, reverse);
    } else {
        run_again(command, table, reverse_before, table, reverse);
    }
    print(b",");
    run_again(command, table, reverse, table, reverse);
}

fn print_field(bytes: &[u8]) {
    if is_all(bytes, 0) {
        print(b" -");
    } else {
        print_line(Line::begin().text(b" ").hex(bytes));
    }
}

// The label of the name that stands behind its length.
fn label_of(field: &[u8]) -> &[u8] {
    rest(first(field, byte_at(field, 0) as usize), 2)
}

fn print_name(slot: &[u8]) {
    print(label_of(slot));
    print_number(b" ", byte_at(slot, 256) as u32, b"");
    print_field(part(slot, 257, 4));
    print_field(part(slot, 261, 16));
    print_field(part(slot, 277, 4));
}

fn print_address(slot: &[u8]) {
    let family = byte_at(slot, 0);
    let size: usize = if family == 4 { 4 } else { 16 };
    print_number(b"", family as u32, b"");
    print_field(part(slot, 1, size));
    print(b" ");
    print(label_of(rest(slot, 17)));
}

// Where a slot of either side begins.
fn start_of(side: &[u8], i: u8) -> u32 {
    if side.len() == TABLE {
        return slot::SIZE as u32 * i as u32;
    }
    REVERSE_SLOT as u32 * i as u32
}

// A slot of either side; no bytes behind the last.
fn slot_of(side: &[u8], i: u8) -> &[u8] {
    let start = start_of(side, i) as usize;
    if side.len() == TABLE {
        return part(side, start, slot::SIZE);
    }
    part(side, start, REVERSE_SLOT)
}

fn print_slot(slot: &[u8]) {
    print(b" [");
    if slot.len() == slot::SIZE {
        print_name(slot);
    } else {
        print_address(slot);
    }
    print(b"]");
}

fn print_slots(side: &[u8]) {
    let mut i: u8 = 0;
    while i < 128 {
        let slot = slot_of(side, i);
        if byte_at(slot, 0) == 0 {
            return;
        }
        i += 1;
        if (6 < i) & (byte_at(slot_of(side, i), 0) != 0) {
            print(b".");
        } else {
            print_slot(slot);
        }
    }
}

fn print_sides(table: &[u8], reverse: &[u8]) {
    print(b"; names");
    print_slots(table);
    print(b"; addresses");
    print_slots(reverse);
}

fn show(
    command: &[u8],
    answer: Answer,
    table_before: &[u8],
    reverse_before: &[u8],
    table: &[u8],
    reverse: &[u8],
) {
    print(b";");
    match answer {
        Answer::Accepted(value) => {
            print_number(b" ", value, b"");
            run_cuts(command, table_before, reverse_before, table, reverse);
            print_sides(table, reverse);
        }
        Answer::Refused { number, offset: _ } => {
            let unchanged = same(table_before, table) & same(reverse_before, reverse);
            show_refusal(number, unchanged);
        }
    }
}

fn run_call(command: &[u8], table: &mut [u8], reverse: &mut [u8]) {
    let mut forward = [0u8; TABLE];
    let mut back = [0u8; REVERSE];
    put_fitting(&mut forward, 0, table);
    put_fitting(&mut back, 0, reverse);
    let answer = answer_of(command, table, reverse);
    let reverse_before = first(&back, reverse.len());
    show(command, answer, &forward, reverse_before, table, reverse);
}

fn run_short(command: &[u8], table: &mut [u8], reverse: &mut [u8]) {
    if reverse.len() == REVERSE {
        run_call(command, table, &mut reverse[0..REVERSE - 1]);
    }
}

fn fill(table: &mut [u8], reverse: &mut [u8], n: u8) {
    let dhcid = dhcid_of(0x01);
    let mut i: u8 = 0;
    while i < n {
        let k = i % 62;
        let name = [3, b'n', b'0' + k / 10, b'0' + k % 10, 0];
        let answer = lease(table, reverse, &name, &dhcid, 4, &[10, 0, 0, i], 0);
        print_answer(answer);
        i += 1;
    }
}

fn run_fill(command: &[u8], table: &mut [u8], reverse: &mut [u8]) {
    print(b";");
    fill(table, reverse, byte_of(rest(command, 2)));
    print_sides(table, reverse);
}

// Puts bytes into a slot.
fn change(command: &[u8], side: &mut [u8]) {
    let mut bytes = [0u8; 32];
    let n = make(rest(command, 8), &mut bytes);
    let start = start_of(side, byte_of(rest(command, 2))) as usize;
    let at = start + byte_of(rest(command, 5)) as usize;
    put_fitting(side, at, first(&bytes, n));
}

fn run(line: &[u8], table: &mut [u8], reverse: &mut [u8]) {
    if byte_at(line, 0) != b' ' {
        return;
    }
    let command = rest(line, 1);
    match byte_at(command, 0) {
        b'p' => run_ptr(command),
        b't' => change(command, table),
        b'r' => change(command, reverse),
        b'f' => run_fill(command, table, reverse),
        b's' => run_short(rest(command, 2), table, reverse),
        _ => run_call(command, table, reverse),
    }
}

fn run_line(line: &[u8], table: &mut [u8], reverse: &mut [u8]) {
    print(line);
    run(line, table, reverse);
    print(b"\n");
}

fn run_all(text: &[u8], table: &mut [u8], reverse: &mut [u8]) {
    let mut at: usize = 0;
    while at < text.len() {
        let stop = find(text, at, b'\n');
        run_line(&text[at..stop], table, reverse);
        at = stop + 1;
    }
}

fn main() {
    let mut text = [0u8; INPUT];
    let n = io::read_full(STDIN, &mut text);
    let mut table = [0u8; TABLE];
    put_fitting(&mut table, 0, b"\x03\x01h\x00");
    put_fitting(&mut table, 256, b"\x01\xc0\x00\x02\x09");
    let mut reverse = [0u8; REVERSE];
    run_all(first(&text, n), &mut table, &mut reverse);
}
