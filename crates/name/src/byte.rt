// One byte of a label.
ghost use Rattle.std.specs.Prelude.{◌≡◌};
ghost use Rattle.name.specs.Label as spec;
ghost use Rattle.name.specs.NotInLabel as count;

use base::ascii::is_in;

// The bytes of labels as a set: hyphen and digits; letters and underscore.
const LABEL_LOW: u64 = 0x3ff200000000000;

const LABEL_HIGH: u64 = 0x7fffffe87fffffe;

// A letter, a digit, a hyphen or an underscore.
pub(crate) fn is_label_byte(b: u8) -> bool
    ensures { result ≡ spec.is_label_byte b }
{
    is_in(LABEL_LOW, LABEL_HIGH, b)
}

// RFC 4034, section 6.2: A to Z become a to z.
pub fn lower(b: u8) -> u8
    ensures { result ≡ spec.lower b }
{
    b.to_ascii_lowercase()
}

// 1 for a byte that no label in canonical form has, or else 0: by comparisons, which are made of many bytes at once.
pub(crate) fn not_in_label(b: u8) -> u8
    ensures { result ≡ count.not_in_label b }
{
    if ((b'a' <= b) & (b <= b'z')) | ((b'0' <= b) & (b <= b'9')) | (b == b'-') | (b == b'_') {
        0
    } else {
        1
    }
}
