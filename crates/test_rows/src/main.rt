// Listings read into a row of four places. What each line must be stands in the file `stdout`, written before this program first ran, from document 01
// ("The listing's grammar", "Refusal numbers", the example of "The table"; docs/RULES.md, 6, 2 and 7.8) and RFC 4701's 3.6.3 in hexadecimal. Each
// place is printed whole: the owner's bytes, the type, the 35 bytes of data, and whether the bytes after the owner are zeros; a place that holds what
// it held before is `as it was`.
#![tactic(auto)]

use base::Answer;
use check::same;
use entry::Record;
use harness::{Line, STDOUT, first, is_all, rest};
use row::read_four;

fn print(line: Line) {
    let bytes = line.bytes;
    io::write_all(STDOUT, first(&bytes, line.len));
}

// What a place holds before the call: no record has this type.
const MARK: u8 = 170;

fn marked() -> Record {
    Record {
        owner: [MARK; 255],
        owner_len: MARK,
        rtype: MARK,
        rdata: [MARK; 35],
    }
}

fn is_marked(place: Record) -> bool {
    let owner = place.owner;
    let rdata = place.rdata;
    let mark = marked();
    let owner_mark = mark.owner;
    let rdata_mark = mark.rdata;
    if place.owner_len != MARK {
        return false;
    }
    if place.rtype != MARK {
        return false;
    }
    same(&owner, &owner_mark) && same(&rdata, &rdata_mark)
}

fn with_record(line: Line, owner: &[u8], len: usize, rtype: u8, rdata: &[u8]) -> Line {
    let record = line.resource_record(first(owner, len), rtype, rdata);
    if is_all(rest(owner, len), 0) {
        return record.text(b" and zeros\n");
    }
    record.text(b" and other bytes\n")
}

fn print_place(place: Record) {
    let line = Line::begin().text(b"  ");
    if is_marked(place) {
        print(line.text(b"as it was\n"));
        return;
    }
    let owner = place.owner;
    let rdata = place.rdata;
    let len = place.owner_len as usize;
    print(with_record(line, &owner, len, place.rtype, &rdata));
}

fn with_answer(line: Line, answer: Answer) -> Line {
    match answer {
        Answer::Accepted(count) => line.text(b"accepted ").number(count as u64),
        Answer::Refused { number, offset } => line.refusal(number, offset),
    }
}

fn show(label: &[u8], text: &[u8]) {
    let mark = marked();
    let read = read_four(text, [mark; 4]);
    let line = Line::begin().text(label).text(b": ");
    let answer = read.answer;
    print(with_answer(line, answer).text(b"\n"));
    let row = read.row;
    print_place(row[0]);
    print_place(row[1]);
    print_place(row[2]);
    print_place(row[3]);
}

fn main() {
    show(b"an empty listing", b"");
    show(b"comments alone", b"; no record\n\n (\n) ; none\n");
    show(
        b"document 01's example",
        b"tank-a.example.com. A 192.0.2.7\nclient.example.com. A 192.0.2.40\nclient.example.com. DHCID AAABxLmlskllE0MVjd57zHcWmEH3pCQ6VytcKD//7es/deY=\n",
    );
    show(
        b"upper case, a class, an IPv6 address",
        b"Acid-1.BAY3. in aaaa 2001:DB8:0:0:0:0:0:1F",
    );
    show(
        b"a DHCID over two lines",
        b"a. DHCID ( AAABxLmlskllE0MVjd57zHcW ; half\n mEH3pCQ6VytcKD//7es/deY= )\n",
    );
    show(
        b"its second line lost",
        b"a. A 192.0.2.1\na. DHCID ( AAABxLmlskllE0MVjd57zHcW ; half\n )\n",
    );
    show(
        b"four records",
        b"a. A 192.0.2.1\nb. A 192.0.2.2\nc. A 192.0.2.3\nd. A 192.0.2.4",
    );
    show(
        b"five records",
        b"a. A 192.0.2.1\nb. A 192.0.2.2\nc. A 192.0.2.3\nd. A 192.0.2.4\ne. A 192.0.2.5\n",
    );
    show(
        b"five records, the last one wrong",
        b"a. A 192.0.2.1\nb. A 192.0.2.2\nc. A 192.0.2.3\nd. A 192.0.2.4\ne. A 192.0.2.05\n",
    );
    show(
        b"five records, and a parenthesis never closed",
        b"a. A 192.0.2.1\nb. A 192.0.2.2\nc. A 192.0.2.3\nd. A 192.0.2.4\ne. A 192.0.2.5 (\n",
    );
    show(
        b"a blank before the owner",
        b"a. A 192.0.2.1\n b. A 192.0.2.2\n",
    );
    show(b"a type that is none", b"a. A 192.0.2.1\nb. MX 192.0.2.2\n");
}
