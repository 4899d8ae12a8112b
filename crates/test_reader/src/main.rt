// Listings read one record at a time, through the reader that holds on to the listing. What each line must be stands in the file `stdout`, written before this
// program first ran, from document 01 ("The listing's grammar": entries, words and data, the faults of an entry with their place, and of its last paragraph the
// records before the first faulty entry, then its refusal, 17 first, and both asked again; "Refusal numbers"; the example of "The table";
// docs/RULES.md, 6, 2 and 7.8) and RFC 4701's 3.6.3 in hexadecimal. Each answer is asked for where the one before says to go on. A record is printed
// whole: the owner's bytes, the type, the 35 bytes of data, and whether the bytes after the owner are zeros; with the end and with a refusal comes a
// record of zeros, or the line would say so.
#![tactic(auto)]

use base::slice::put;
use entry::Record;
use harness::{Line, STDOUT, first, is_all, rest};
use listing::{Found, Step};
use reader::peek_at;

fn print(line: Line) {
    let bytes = line.bytes;
    io::write_all(STDOUT, first(&bytes, line.len));
}

fn with_record(line: Line, owner: &[u8], len: usize, rtype: u8, rdata: &[u8]) -> Line {
    let record = line.resource_record(first(owner, len), rtype, rdata);
    if is_all(rest(owner, len), 0) {
        return record.text(b" and zeros");
    }
    record.text(b" and other bytes")
}

fn with_all(line: Line, record: Record) -> Line {
    let owner = record.owner;
    let rdata = record.rdata;
    with_record(
        line,
        &owner,
        record.owner_len as usize,
        record.rtype,
        &rdata,
    )
}

fn is_none(record: Record) -> bool {
    let owner = record.owner;
    let rdata = record.rdata;
    if record.owner_len != 0 {
        return false;
    }
    if record.rtype != 0 {
        return false;
    }
    is_all(&owner, 0) && is_all(&rdata, 0)
}

// What comes with the end and with a refusal.
fn with_none(line: Line, record: Record) -> Line {
    if is_none(record) {
        return line;
    }
    with_all(line.text(b" and the record "), record)
}

fn print_step(step: Step) {
    let found = step.found;
    let record = step.record;
    let line = Line::begin().text(b"  ");
    let told = match found {
        Found::Record => with_all(line, record),
        Found::End => with_none(line.text(b"the end"), record),
        Found::Refused { number, offset } => with_none(line.refusal(number, offset), record),
    };
    print(told.text(b"\n"));
}

// Asks so many times, the first time at an offset.
fn show(label: &[u8], text: &[u8], from: usize, times: u8) {
    print(Line::begin().text(label).text(b":\n"));
    let mut at = from;
    let mut i: u8 = 0;
    while i < times {
        let step = peek_at(text, at);
        print_step(step);
        at = step.next;
        i += 1;
    }
}

// The example of "The table".
fn show_example() {
    let text =
        b"tank-a.example.com. A 192.0.2.7\nclient.example.com. A 192.0.2.40\nclient.example.com. DHCID AAABxLmlskllE0MVjd57zHcWmEH3pCQ6VytcKD//7es/deY=\n";
    show(b"document 01's example", text, 0, 5);
    show(b"from its second entry on", text, 32, 3);
}

fn show_faults() {
    show(
        b"two records, a wrong one and a right one",
        b"a. A 192.0.2.1\nb. A 192.0.2.2\nc. A 192.0.2.03\nd. A 192.0.2.4\n",
        0,
        4,
    );
    show(b"a wrong one alone", b"c. A 192.0.2.03", 0, 2);
    show(
        b"a parenthesis never closed",
        b"a. A 192.0.2.1\nb. A 192.0.2.2 (\nc. A 192.0.2.3\n",
        0,
        3,
    );
    show(
        b"a blank before the owner",
        b"; one\n a. A 192.0.2.1\nb. A 192.0.2.2\n",
        0,
        2,
    );
    show(
        b"a type that is none",
        b"a. A 192.0.2.1\nb. MX 192.0.2.2\n",
        0,
        3,
    );
}

// Where the text has ended there is nothing more, whatever the offset.
fn show_past() {
    let text = b"a. A 192.0.2.1\n";
    show(b"from the end of the text on", text, 15, 2);
    show(b"from past it", text, 1000000, 2);
    show(
        b"from the last offset that there is",
        text,
        18446744073709551615,
        2,
    );
}

fn show_long() {
    let mut text = [b' '; 65537];
    put(&mut text, 0, b"a. A 192.0.2.1\n");
    show(
        b"a record and blanks, 65,536 bytes",
        first(&text, 65536),
        0,
        3,
    );
    show(b"a record and blanks, 65,537 bytes", &text, 0, 2);
    show(b"the same, from past it", &text, 1000000, 2);
}

fn main() {
    show(b"an empty listing", b"", 0, 2);
    show(b"comments alone", b"; no record\n\n (\n) ; none\n", 0, 2);
    show_example();
    show(
        b"an IPv6 address after a comment, and empty lines",
        b"; one\n\nAcid-1.BAY3. in aaaa 2001:DB8:0:0:0:0:0:1F\n\n\n",
        0,
        3,
    );
    show_faults();
    show_past();
    show_long();
}
