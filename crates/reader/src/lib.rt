// A reader that holds on to a listing and gives one record at a time. The work is `listing::step_at`, over a plain slice; these functions are thin.
#![tactic(auto)]

ghost use Rattle.std.specs.Prelude.{◌≡◌};
ghost use Rattle.listing.specs.Giving as spec;

use listing::{Step, step_at};

#[derive(Drop)]
pub struct Reader<'a> {
    pub text: &'a [u8],
    // where the next step begins: 0, or the `next` of the last step
    pub at: usize,
}

// A reader of `text`, at its beginning.
pub fn over<'a>(text: &'a [u8]) -> Reader<'a>
    ensures { (result.text ≡ text.entry) × (result.at ≡ 0) }
{
    Reader { text, at: 0 }
}

// The next answer: a record, the end, or the refusal; and where to go on. The reader stays where it is.
pub fn peek<'a>(reader: Reader<'a>) -> Step
    ensures { spec.StepIs reader.entry.text.now reader.entry.at result }
{
    step_at(reader.text, reader.at)
}

// The reader moved to an offset: after a step, to its `next`.
pub fn moved<'a>(reader: Reader<'a>, at: usize) -> Reader<'a>
    ensures { (result.text ≡ reader.entry.text) × (result.at ≡ at) }
{
    Reader {
        text: reader.text,
        at,
    }
}

// What a reader of `text` answers that was moved to an offset. Text and offset are all that a caller needs, so its own proof is no walk by hand.
pub fn peek_at(text: &[u8], at: usize) -> Step
    ensures { spec.StepIs text.now at result }
{
    peek(moved(over(text), at))
}
