// What is kept of the options with one code while a message's options are passed.
ghost use Rattle.std.specs.Prelude.{◌≡◌, []};
ghost use Rattle.message.specs.Seen as spec;

use crate::Part;

#[derive(Clone, Copy)]
pub struct Seen {
    pub found: bool,
    // there is another one
    pub again: bool,
    // where the first one's data stand; zeros where there is none
    pub part: Part,
}

impl Seen {
    pub fn none() -> Seen
        ensures { result ≡ spec.seen_of [] }
    {
        Seen {
            found: false,
            again: false,
            part: Part { start: 0, len: 0 },
        }
    }

    // One more option with this code.
    pub fn met(self, part: Part) -> Seen
        ensures { result ≡ spec.met self part }
    {
        // number by number, so that a loop over options keeps them in registers
        let mut start = part.start;
        let mut len = part.len;
        if self.found {
            start = self.part.start;
            len = self.part.len;
        }
        Seen {
            found: true,
            again: self.found,
            part: Part {
                start: start,
                len: len,
            },
        }
    }
}
