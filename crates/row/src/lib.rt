// Reading a whole listing into a row of records that the caller lends. Every decision is made by functions over plain slices and values; `read` itself only
// stores. The first of them has checked the listing to its end and compared the row's length, so that a refused call stores nothing.
#![tactic(auto)]

ghost use Rattle.std.specs.Prelude.{◌≡◌};
ghost use Rattle.row.specs.Row as spec;

use base::Answer;
use base::refusal::ROW_SHORT;
use entry::Record;
use listing::{check, step_at};

// How far a row is filled.
#[derive(Clone, Copy)]
struct Filling {
    // what the call answers
    answer: Answer,
    // where the next record is looked for in the listing
    at: usize,
    // how many places are filled, and how many are to be
    count: usize,
    total: usize,
    going: bool,
}

// The record for the next place, and the filling after it.
#[derive(Drop)]
struct Turn {
    record: Record,
    after: Filling,
}

fn refused(number: u32, offset: u32) -> Filling
    ensures { result ≡ spec.refusing number offset }
{
    Filling {
        answer: Answer::Refused {
            number: number,
            offset: offset,
        },
        at: 0,
        count: 0,
        total: 0,
        going: false,
    }
}

// The answer to a listing and a row of so many places, before any is filled.
fn begin(text: &[u8], places: usize) -> Filling
    ensures { spec.Begins text.now places result }
{
    match check(text) {
        Answer::Refused { number, offset } => refused(number, offset),
        Answer::Accepted(records) => {
            let total = records as usize;
            if places < total {
                return refused(ROW_SHORT, 0);
            }
            Filling {
                answer: Answer::Accepted(records),
                at: 0,
                count: 0,
                total: total,
                going: 0 < total,
            }
        }
    }
}

// The next record of a listing that was found right, for the next place.
fn step(text: &[u8], s: Filling) -> Turn
    requires { spec.More text.now s }
    ensures { spec.TakesNext text.now s result }
{
    let found = step_at(text, s.at);
    let record = found.record;
    let count = s.count + 1;
    let answer = s.answer;
    Turn {
        record: record,
        after: Filling {
            answer: answer,
            at: found.next,
            count: count,
            total: s.total,
            going: count < s.total,
        },
    }
}

// Reads a listing into a row: answers how many records it has, which then stand in the row's places from the first on; or the refusal, with the row as it was.
pub fn read(text: &[u8], row: &mut [Record]) -> Answer
    ensures { spec.RowRead text.now row.old row.new result }
{
    let places = row.len();
    let mut s = begin(text, places);
    while s.going {
        let d = step(text, s);
        let at = s.count;
        row[at] = d.record;
        s = d.after;
    }
    s.answer
}

// What `read_four` answers: the answer, and the row after it.
#[derive(Drop)]
pub struct Four {
    pub answer: Answer,
    pub row: [Record; 4],
}

// Reads a listing into a row of four places by value: for programs and tests, which then hold no reference to records.
pub fn read_four(text: &[u8], places: [Record; 4]) -> Four
    ensures { spec.RowRead text.now places result.row result.answer }
{
    let mut row = places;
    let answer = read(text, &mut row);
    Four {
        answer: answer,
        row: row,
    }
}
