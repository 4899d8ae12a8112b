// The edges of document 01 that are not marked there, run. What must be printed, in the file `stdout`, was written from document 01 ("Both sides of
// each edge"; docs/RULES.md, 9) before this program first ran. The marked ones are theorems: specs/Rows.antt.
#![tactic(auto)]

use base::Answer;
use harness::{Line, STDOUT, first};
use listing::check;

fn print(line: Line) {
    let bytes = line.bytes;
    io::write_all(STDOUT, first(&bytes, line.len));
}

fn show(label: &[u8], text: &[u8]) {
    let line = Line::begin().text(label).text(b": ");
    match check(text) {
        Answer::Accepted(records) => print(line.number(records as u64).text(b" record\n")),
        Answer::Refused { number, offset } => print(line.refusal(number, offset).text(b"\n")),
    }
}

fn main() {
    show(b"a. (, byte 10, A ) 1.2.3.4", b"a. (\nA ) 1.2.3.4");
}
