// Checks a listing. Standard input is the listing; standard output gets its records, each as the writer spells it, or one line such as `refused 24 at 0`
// and no record. Where input or output fails, a line on the error stream says so and nothing more is printed: a read that failed does not pass for the
// end of the listing.
#![tactic(auto)]

ghost use Rattle.std.specs.Prelude.{◌+◌, ◌≤◌, length};
ghost use Rattle.grammar.specs.Listing.{ResourceRecord};
ghost use Rattle.writer.specs.Line.{Writable, Holds};
ghost use Rattle.listing_check.specs.Printing as spec;

use base::Answer;
use base::refusal::LISTING_LONG;
use entry::Record;
use listing::{Found, check, step_at};
use listing_io::{INPUT_LIMIT, Input, complain, print, print_refusal, read_input};
use writer::{LONGEST_LINE, put_record};

// How many bytes of output may wait before they are written out; no fewer than the longest line has.
const OUTPUT_ROOM: usize = 4096;

// Puts the line of a record into `out`, behind the `used` bytes that wait there, and answers how many wait then.
fn put_line(out: &mut [u8], used: usize, place: Record) -> usize
    requires writable { Writable place }
    requires longest_line_in_bounds { used + spec.longest_line ≤ length out.old }
    ensures { (r : ResourceRecord) → Holds place r → spec.LinePut r out.old used out.new result }
{
    match put_record(out, used, place) {
        Answer::Accepted(n) => used + n as usize,
        // never: there is room for the longest line
        Answer::Refused {
            number: _,
            offset: _,
        } => used,
    }
}

// The lines that wait in the buffer.
#[derive(Drop)]
struct Batch {
    // where the listing goes on
    next: usize,
    // how many bytes wait
    used: usize,
}

// Puts the line of the next record from `at` on, if there is one, in a listing that is right.
fn put_next(text: &[u8], at: usize, out: &mut [u8], used: usize) -> Batch
    requires printable { spec.Printable text.now at }
    requires longest_line_in_bounds { used + spec.longest_line ≤ length out.old }
    ensures { spec.NextPut text.now at out.old used out.new result }
{
    let step = step_at(text, at);
    let found = step.found;
    let record = step.record;
    let next = step.next;
    match found {
        Found::Record => Batch {
            next: next,
            used: put_line(out, used, record),
        },
        // the end; a refusal never, since the listing is right
        _ => Batch {
            next: text.len(),
            used: used,
        },
    }
}

// Puts the lines of the records from `at` on while there is room for a longest line, in a listing that is right.
fn fill(text: &[u8], at: usize, out: &mut [u8]) -> Batch
    requires printable { spec.Printable text.now at }
    requires longest_line_in_bounds { spec.longest_line ≤ length out.old }
    ensures { spec.BatchPut text.now at out.old out.new result }
{
    let mut next = at;
    let mut used: usize = 0;
    while next < text.len() {
        if out.len() - used < LONGEST_LINE {
            return Batch {
                next: next,
                used: used,
            };
        }
        let batch = put_next(text, next, out, used);
        next = batch.next;
        used = batch.used;
    }
    Batch {
        next: next,
        used: used,
    }
}

// Prints the records of a listing that is right, one batch of lines after the other. False where the output failed.
fn print_records(text: &[u8], out: &mut [u8]) -> bool
    requires printable { spec.Printable text.now 0 }
    requires longest_line_in_bounds { spec.longest_line ≤ length out.old }
{
    let mut at: usize = 0;
    while at < text.len() {
        let batch = fill(text, at, out);
        let used = batch.used;
        if !print(&out[..used]) {
            return false;
        }
        at = batch.next;
    }
    true
}

// Prints what is to be said of a listing. False where the output failed.
fn print_answer(text: &[u8]) -> bool {
    if text.len() == INPUT_LIMIT {
        return print_refusal(LISTING_LONG, 0);
    }
    let mut out = [0u8; OUTPUT_ROOM];
    match check(text) {
        Answer::Accepted(_) => print_records(text, &mut out),
        Answer::Refused { number, offset } => print_refusal(number, offset),
    }
}

fn main(rt: HostRuntime) {
    // The listing is checked whole before a record of it is printed, so all of it stands in memory; and there is no heap. Nothing copies it: every function
    // above is lent it, or a part.
    let mut text = [0u8; INPUT_LIMIT];
    let mut input = rt.stdin();
    match read_input(&mut input, &mut text) {
        Input::Failed => complain(b"listing_check: standard input could not be read\n"),
        Input::Read(n) => {
            if !print_answer(&text[..n]) {
                complain(b"listing_check: standard output could not be written\n");
            }
        }
    }
}
