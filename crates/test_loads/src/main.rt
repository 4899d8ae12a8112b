// Listings loaded into a table, and the table written as a listing again. The input is cases: a line with % and a label, and the listing up to the next one. A listing
// is loaded over bytes that are no table's. Where it is refused they are compared with what they were; where it is accepted the table is written, its text is printed
// unless it is that of the input, and what was written is loaded again and compared. At the end come a table of 64 names of 255 bytes, each with all three records,
// which goes the same way, and the refusals of a write. What must be printed, in the file `stdout`, was written before this program first ran, from document 01 ("The
// table": "Loading", "Writing" and its example of 140 bytes; "Refusal numbers"; docs/RULES.md, 7.7, 7.8 and 2.2), and the DHCID in hexadecimal from
// RFC 4701, 3.6.3.
#![tactic(auto)]

ghost use Rattle.std.specs.Prelude.{◌≡◌, length};

use base::Answer;
use base::slice::put;
use check::same;
use harness::{Line, STDIN, STDOUT, find, first, is_all, rest};
use table_load::load;
use table_write::write;

fn print(bytes: &[u8]) {
    io::write_all(STDOUT, bytes);
}

fn print_line(line: Line) {
    let bytes = line.bytes;
    print(first(&bytes, line.len));
}

// No fewer bytes than the input has.
const INPUT: usize = 8192;

// What stands in an area before a call.
const OLD: u8 = 170;

const TABLE: usize = 19968;

// The most bytes that a table is as a listing.
const WRITTEN: usize = 56512;

// Of so long a text only the length is printed.
const LONG: usize = 4096;

// A refusal, and whether the bytes that were lent are those from before.
fn show_refusal(number: u32, offset: u32, lent: &[u8]) {
    print_line(Line::begin().refusal(number, offset));
    if is_all(lent, OLD) {
        print(b", all bytes as they were\n");
    } else {
        print(b", bytes changed\n");
    }
}

// Loads what was written into other bytes.
fn load_again(table: &[u8], text: &[u8]) {
    let mut again = [OLD; TABLE];
    match load(&mut again, text) {
        Answer::Accepted(_) => {
            if same(&again, table) {
                print(b"loaded again: the same table\n");
            } else {
                print(b"loaded again: another table\n");
            }
        }
        Answer::Refused { number, offset } => show_refusal(number, offset, &again),
    }
}

// What was written, and the bytes behind it.
fn show_written(table: &[u8], given: &[u8], out: &[u8], len: usize) {
    print_line(Line::begin().number(len as u64).text(b" bytes written"));
    if !is_all(rest(out, len), OLD) {
        print(b", and more changed");
    }
    let written = first(out, len);
    if same(written, given) {
        print(b", as given\n");
    } else if len < LONG {
        print(b":\n");
        print(written);
    } else {
        print(b"\n");
    }
    load_again(table, written);
}

fn write_again(table: &[u8], given: &[u8]) {
    let mut out = [OLD; WRITTEN];
    match write(table, &mut out) {
        Answer::Accepted(len) => show_written(table, given, &out, len as usize),
        Answer::Refused { number, offset } => show_refusal(number, offset, &out),
    }
}

fn run_listing(text: &[u8]) {
    let mut table = [OLD; TABLE];
    match load(&mut table, text) {
        Answer::Accepted(value) => {
            print_line(
                Line::begin()
                    .text(b"loaded, answer ")
                    .number(value as u64)
                    .text(b"; "),
            );
            write_again(&table, text);
        }
        Answer::Refused { number, offset } => show_refusal(number, offset, &table),
    }
}

// A label, the line's end and a listing.
fn run_case(case: &[u8]) {
    let end = find(case, 0, b'\n');
    print(first(case, end));
    print(b": ");
    if end < case.len() {
        run_listing(rest(case, end + 1));
    }
}

fn run_all(text: &[u8]) {
    let mut at = find(text, 0, b'%');
    while at < text.len() {
        let end = find(text, at + 1, b'%');
        run_case(&text[at + 1..end]);
        at = end;
    }
}

// A slot with a name of 255 bytes, labels of 63, 63, 63 and 61 letters, and all three records.
fn long_slot() -> [u8; 312] {
    let mut slot = [b'a'; 312];
    slot[0] = 255;
    slot[1] = 63;
    slot[65] = 63;
    slot[129] = 63;
    slot[193] = 61;
    slot[255] = 0;
    slot[256] = 7;
    slot[257] = 255;
    slot[258] = 255;
    slot[259] = 255;
    slot[260] = 255;
    slot[277] = 0;
    slot[278] = 0;
    slot[279] = 1;
    slot
}

// 64 such names, which differ in their first two letters.
fn fill(table: &mut [u8])
    requires { length table.old ≡ 19968 }
{
    let mut slot = long_slot();
    let mut i: u8 = 0;
    while i < 64 {
        slot[2] = b'a' + i / 8;
        slot[3] = b'a' + i % 8;
        put(table, 312 * i as usize, &slot);
        i += 1;
    }
}

fn show_answer(answer: Answer, out: &[u8]) {
    match answer {
        Answer::Accepted(_) => print(b"accepted\n"),
        Answer::Refused { number, offset } => show_refusal(number, offset, out),
    }
}

// A write that has one byte too few, and one of bytes that are no table's, which has next to none.
fn refuse(table: &mut [u8])
    requires { length table.old ≡ 19968 }
{
    print(b"the same, with 56511 bytes of room: ");
    let mut short = [OLD; WRITTEN - 1];
    let answer = write(table, &mut short);
    show_answer(answer, &short);
    table[0] = 0;
    print(b"the same with no name in its first slot, 40 before 13: ");
    let mut little = [OLD; 1];
    let faulty = write(table, &mut little);
    show_answer(faulty, &little);
}

fn main() {
    let mut text = [0u8; INPUT];
    let n = io::read_full(STDIN, &mut text);
    run_all(first(&text, n));
    let mut table = [0u8; TABLE];
    fill(&mut table);
    print(b"64 names of 255 bytes with three records each: ");
    write_again(&table, b"");
    refuse(&mut table);
}
