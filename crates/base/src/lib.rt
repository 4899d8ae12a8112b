// What every other crate stands on: the answer of a call, the refusal numbers, the test of a DHCID and the copy of bytes.
#![tactic(auto)]

pub mod ascii;
pub mod dhcid;
pub mod number;
pub mod refusal;
pub mod slice;

ghost use Rattle.std.specs.Prelude.{◌≡◌};
ghost use Rattle.base.specs.Answer as spec;
ghost use Rattle.base.specs.declared.Answer.TheVariants.{Refused};

// What a call answers: accepted, with a value that the call gives a meaning; or refused, with a number of `refusal`
// and, where a listing was read, the offset of the faulty entry (document 01 calls it the place: docs/RULES.md, 1.3), else 0.
#[derive(Clone, Copy)]
pub enum Answer {
    Accepted(u32),
    Refused { number: u32, offset: u32 },
}

impl Answer {
    // A refusal that no entry of a listing is at fault for.
    pub fn refused(number: u32) -> Answer
        ensures { result ≡ Refused number 0 }
    {
        Answer::Refused {
            number: number,
            offset: 0,
        }
    }

    // The answer as C gets it: the low 32 bits are the refusal's number, 0 where accepted; the high 32 bits are its offset, or the value.
    pub fn for_c(self) -> u64
        ensures told { result ≡ spec.for_c self }
        ensures small { spec.In32Bits self }
    {
        match self {
            Answer::Accepted(value) => (value as u64) * 4294967296,
            Answer::Refused { number, offset } => (offset as u64) * 4294967296 + (number as u64),
        }
    }
}
