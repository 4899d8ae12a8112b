// The messages for a name server, field by field, their refusals, and a server's answers read. A line of the input with a ; is a label and a call:
//
//     a NUMBER ROOM FAMILY ZONE NAME DHCID ADDRESS     the first message of an add, into so much room; b is the second, r the first of a remove
//     s NUMBER ROOM - ZONE NAME DHCID .                the second message of a remove
//     ? NUMBER 0000 - ANSWER                           an answer to the message with that number
//
// All of it is in hexadecimal, where 61*3f stands for 63 bytes 61, and a dot for nothing. A line that begins with a blank is a field of the message that was written
// last: its length, and what it is. The others are headings.
//
// Each line of the output is the label and the value or the refusal, or the field and its bytes. The fields stand from the message's first byte on, and the last is the
// byte behind it. No byte behind a message may have changed, and after a refusal none at all. What must be printed, in the file `stdout`, was written before this
// program first ran: the messages from RFC 2136 (2.2 to 2.5), RFC 1035 (3.1, 3.2, 4.1.3), RFC 3596 (2.1, 2.2) and RFC 4701 (3, 3.6.3), the rest from document 02 (K8)
// and include/vichrelka.h ("Messages for a name server"). The first four messages are by hand; those of an AAAA and in upper case were made of them by replacing text.
// Since the first run a heading has changed, and the form in which a value or a refusal is told.
#![tactic(auto)]

use base::Answer;
use harness::{Line, STDIN, STDOUT, find, first, is_all, put_fitting, rest};
use text::digit::digit_value;
use update::Kind;
use update::call::{write, write_last};
use update::reply::read;

// No fewer bytes than the input has.
const INPUT: usize = 32768;

// No fewer bytes than any line asks room for.
const AREA: usize = 2048;

// What stands in the area before a call.
const OLD: u8 = 170;

// More bytes than a name may have, since some are too long.
const WORD: usize = 300;

fn print(bytes: &[u8]) {
    io::write_all(STDOUT, bytes);
}

fn print_number(before: &[u8], number: u32) {
    print(before);
    io::print_decimal(STDOUT, number as u64);
}

// The byte at an index, 0 behind the end.
fn byte_at(bytes: &[u8], at: usize) -> u8 {
    if at < bytes.len() { bytes[at] } else { 0 }
}

// The byte that a word begins with, in two digits.
fn byte_of(word: &[u8]) -> u8 {
    digit_value(byte_at(word, 0)) % 16 * 16 + digit_value(byte_at(word, 1)) % 16
}

// The number that a word begins with, in four digits.
fn number_of(word: &[u8]) -> u16 {
    byte_of(word) as u16 * 256 + byte_of(rest(word, 2)) as u16
}

fn put_times(out: &mut [u8], at: usize, b: u8, times: u8) -> usize {
    let many = [b; 255];
    put_fitting(out, at, first(&many, times as usize))
}

// Puts the bytes that the first word stands for into `out`, as far as there is room, and answers how many there are.
fn make(words: &[u8], out: &mut [u8]) -> usize {
    let end = find(words, 0, b' ');
    let mut n: usize = 0;
    let mut i: usize = 0;
    while i < end {
        let piece = rest(words, i);
        if byte_at(piece, 0) == b'.' {
            i += 1;
        } else if byte_at(piece, 2) == b'*' {
            n = put_times(out, n, byte_of(piece), byte_of(rest(piece, 3)));
            i += 5;
        } else {
            n = put_times(out, n, byte_of(piece), 1);
            i += 2;
        }
    }
    n
}

// The words behind the first.
fn next(words: &[u8]) -> &[u8] {
    rest(words, find(words, 0, b' ') + 1)
}

fn kind_of(letter: u8) -> Kind {
    match letter {
        b'a' => Kind::AddFirst,
        b'b' => Kind::AddSecond,
        _ => Kind::RemoveFirst,
    }
}

// The call, with what its words stand for; an answer that is read is the first of them.
fn answer_with(
    call: &[u8],
    zone: &[u8],
    name: &[u8],
    dhcid: &[u8],
    address: &[u8],
    out: &mut [u8],
) -> Answer {
    let letter = byte_at(call, 0);
    let number = number_of(rest(call, 2));
    if letter == b'?' {
        return read(number, zone);
    }
    if letter == b's' {
        return write_last(number, zone, name, dhcid, out);
    }
    let family = digit_value(byte_at(call, 12)) as u32;
    write(
        kind_of(letter),
        number,
        zone,
        name,
        dhcid,
        family,
        address,
        out,
    )
}

fn answer_named(call: &[u8], zone: &[u8], name: &[u8], words: &[u8], out: &mut [u8]) -> Answer {
    let mut dhcid = [0u8; WORD];
    let mut address = [0u8; WORD];
    let d = make(words, &mut dhcid);
    let a = make(next(words), &mut address);
    answer_with(call, zone, name, first(&dhcid, d), first(&address, a), out)
}

fn answer_of(call: &[u8], out: &mut [u8]) -> Answer {
    let mut zone = [0u8; WORD];
    let mut name = [0u8; WORD];
    let words = rest(call, 14);
    let behind = next(words);
    let z = make(words, &mut zone);
    let n = make(behind, &mut name);
    answer_named(call, first(&zone, z), first(&name, n), next(behind), out)
}

// Prints the answer, and answers how many bytes may have changed: those of a message.
fn show(answer: Answer) -> usize {
    match answer {
        Answer::Accepted(value) => {
            print_number(b": value ", value);
            value as usize
        }
        Answer::Refused { number, offset: _ } => {
            print_number(b": refused ", number);
            0
        }
    }
}

// The call, into so much of the area as the line says.
fn run(call: &[u8], area: &mut [u8]) {
    let old = [OLD; AREA];
    put_fitting(area, 0, &old);
    let room = number_of(rest(call, 7)) as usize;
    if room <= area.len() {
        let n = show(answer_of(call, &mut area[0..room]));
        if !is_all(rest(area, n), OLD) {
            print(b", and others changed");
        }
    }
}

fn print_hex(bytes: &[u8]) {
    let line = Line::begin().text(b": ").hex(bytes);
    let text = line.bytes;
    print(first(&text, line.len));
}

// Prints the field that begins there, and answers where it ends.
fn show_field(line: &[u8], area: &[u8], at: usize) -> usize {
    let start = at % AREA;
    let n = byte_of(rest(line, 1)) as usize;
    print(rest(line, 3));
    print_hex(first(rest(area, start), n));
    start + n
}

// Answers where the next field of the message begins.
fn run_line(line: &[u8], area: &mut [u8], at: usize) -> usize {
    if byte_at(line, 0) == b' ' {
        return show_field(line, area, at);
    }
    let label = find(line, 0, b';');
    print(first(line, label));
    if label == line.len() {
        return at;
    }
    run(rest(line, label + 1), area);
    0
}

fn run_all(text: &[u8], area: &mut [u8]) {
    let mut field: usize = 0;
    let mut at: usize = 0;
    while at < text.len() {
        let end = find(text, at, b'\n');
        field = run_line(&text[at..end], area, field);
        print(b"\n");
        at = end + 1;
    }
}

fn main() {
    let mut text = [0u8; INPUT];
    let n = io::read_full(STDIN, &mut text);
    let mut area = [OLD; AREA];
    run_all(first(&text, n), &mut area);
}
