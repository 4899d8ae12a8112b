// Reading a listing: entry by entry, each byte looked at a bounded number of times, with one record in hand at most.
#![tactic(auto)]

ghost use Rattle.listing.specs.Reading.{Checks};
ghost use Rattle.listing.specs.Giving.{StepIs};

use base::Answer;
use base::refusal::LISTING_LONG;
use entry::{Content, Record, no_record, read_entry};
use grammar::LISTING_LIMIT;

// Checks a listing: how many records it has; or the number and the offset of its refusal.
pub fn check(text: &[u8]) -> Answer
    ensures { Checks text.now result }
{
    if LISTING_LIMIT < text.len() {
        return Answer::Refused {
            number: LISTING_LONG,
            offset: 0,
        };
    }
    let mut at: usize = 0;
    let mut count: u32 = 0;
    while at < text.len() {
        let entry = read_entry(text, at);
        let next = entry.next;
        let content = entry.content;
        match content {
            Content::Nothing => {}
            Content::Record => count += 1,
            Content::Fault(number) => {
                return Answer::Refused {
                    number: number,
                    offset: at as u32,
                };
            }
        }
        at = next;
    }
    Answer::Accepted(count)
}

// What stands next in a listing.
#[derive(Clone, Copy)]
pub enum Found {
    Record,
    End,
    Refused { number: u32, offset: u32 },
}

#[derive(Clone, Copy)]
pub struct Step {
    pub found: Found,
    // all zeros where no record was found
    pub record: Record,
    // from where to go on: after the record; or here again, for the same answer
    pub next: usize,
}

// The next record from the offset `at` on, which is 0 or the `next` of a step before; or the end, also past the text; or the refusal.
pub fn step_at(text: &[u8], at: usize) -> Step
    ensures { StepIs text.now at result }
{
    if LISTING_LIMIT < text.len() {
        return Step {
            found: Found::Refused {
                number: LISTING_LONG,
                offset: 0,
            },
            record: no_record(),
            next: at,
        };
    }
    let mut i = at;
    while i < text.len() {
        let entry = read_entry(text, i);
        let record = entry.record;
        let next = entry.next;
        let content = entry.content;
        match content {
            Content::Nothing => i = next,
            Content::Record => {
                return Step {
                    found: Found::Record,
                    record: record,
                    next: next,
                };
            }
            Content::Fault(number) => {
                return Step {
                    found: Found::Refused {
                        number: number,
                        offset: i as u32,
                    },
                    record: record,
                    next: i,
                };
            }
        }
    }
    Step {
        found: Found::End,
        record: no_record(),
        next: i,
    }
}
