// Sets of ASCII bytes.
ghost use Rattle.std.specs.Prelude.{◌≡◌};
ghost use Rattle.base.specs.Ascii as spec;

// Is `b` in the set of bytes below 128 whose members are the bits of `low`, from 0 on, and of `high`, from 64 on? One shift, and no branch that hangs on
// which byte it is: in a name that cannot be foreseen.
pub fn is_in(low: u64, high: u64, b: u8) -> bool
    ensures { result ≡ spec.is_in low high b }
{
    let mut bits = low;
    if 63 < b {
        bits = high;
    }
    (b < 128) & ((bits >> (b % 64)) % 2 == 1)
}
