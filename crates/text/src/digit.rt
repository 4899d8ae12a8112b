// Digits of numbers.
ghost use Rattle.std.specs.Prelude.{◌≡◌, ◌-◌, ◌<◌, ◌≤◌, ◌++◌, length, replicate};
ghost use Rattle.text.specs.Digits as spec;

// The value of a decimal or hexadecimal digit, in either case; 16 for any other byte.
#[tactic(auto, unfolding(crate::specs::Digits::digit_value))]
pub fn digit_value(b: u8) -> u8
    ensures { result ≡ spec.digit_value b }
{
    match b {
        b'0'..=b'9' => b - b'0',
        b'A'..=b'F' => b - b'A' + 10,
        b'a'..=b'f' => b - b'a' + 10,
        _ => 16,
    }
}

// The hexadecimal digit of a number below 16, in lower case.
#[tactic(auto, unfolding(crate::specs::Digits::hex_digit))]
pub fn hex_digit(v: u8) -> u8
    requires { v < 16 }
    ensures { result ≡ spec.hex_digit v }
{
    if v < 10 { b'0' + v } else { b'a' + (v - 10) }
}

// The digits of a byte in decimal: the first `len` of `digits`, and zeros after them.
#[derive(Drop)]
pub struct DecimalByte {
    pub digits: [u8; 3],
    pub len: usize,
    ghost few: { len ≤ 3 },
}

#[tactic(auto, unfolding(crate::specs::Digits::decimal))]
pub fn decimal(n: u8) -> DecimalByte
    ensures { (result.digits ≡ spec.decimal 3 n ++ replicate (3 - result.len) 0) × (result.len ≡ length (spec.decimal 3 n)) }
{
    if n < 10 {
        return DecimalByte {
            digits: [b'0' + n, 0, 0],
            len: 1,
        };
    }
    if n < 100 {
        return DecimalByte {
            digits: [b'0' + n / 10, b'0' + n % 10, 0],
            len: 2,
        };
    }
    DecimalByte {
        digits: [b'0' + n / 10 / 10, b'0' + n / 10 % 10, b'0' + n % 10],
        len: 3,
    }
}
