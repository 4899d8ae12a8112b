// The text of a DHCID: base64, or RFC 3597's generic form, in any number of words.
#![tactic(auto)]

ghost use Rattle.std.specs.Prelude.{◌≡◌, ◌⊎◌, List, [], ◌∷◌, ◌++◌, ℕ, ◌+◌, ◌%◌, ◌≤◌, ◌<◌, length, take};
ghost use Rattle.base.specs.Bytes.{overlay, tabulate};
ghost use Rattle.base.specs.Logic.{Decides};
ghost use Rattle.dhcid_text.specs.Base64 as base64;
ghost use Rattle.dhcid_text.specs.Dhcid as spec;
ghost use Rattle.dhcid_text.specs.DhcidReading as reading;
ghost use Rattle.dhcid_text.specs.DhcidReading.{After};
ghost use Rattle.dhcid_text.specs.declared.Form.{Form};
ghost use Rattle.text.specs.Reading.{Decodes};

use base::dhcid::is_well_formed;
use text::digit::digit_value;

// What the words that were read are.
#[derive(Clone, Copy, PartialEq, Eq)]
pub enum Form {
    // no word yet
    Nothing,
    Base64,
    // the generic form's marker
    Marked,
    // the generic form's digits
    Digits,
    // no DHCID, whatever follows
    Refused,
}

// How far the reading of a DHCID's words has come: 38 bytes, by value.
#[derive(Drop)]
pub struct DhcidWords {
    pub form: Form,
    // the characters that were read in this form
    pub count: u8,
    // the bits of base64 that wait for the rest of their byte
    pub pending: u8,
    pub bytes: [u8; 35],
}

// Fills up the last group of base64.
const PAD: u8 = b'=';

// The values of all bytes as base64 digits, sixteen in a line: 0 to 63 (\x3f), and 64 (\x40) for a byte that is no digit.
const VALUES64: [u8; 256] = *b"\
    \x40\x40\x40\x40\x40\x40\x40\x40\x40\x40\x40\x40\x40\x40\x40\x40\
    \x40\x40\x40\x40\x40\x40\x40\x40\x40\x40\x40\x40\x40\x40\x40\x40\
    \x40\x40\x40\x40\x40\x40\x40\x40\x40\x40\x40\x3e\x40\x40\x40\x3f\
    \x34\x35\x36\x37\x38\x39\x3a\x3b\x3c\x3d\x40\x40\x40\x40\x40\x40\
    \x40\x00\x01\x02\x03\x04\x05\x06\x07\x08\x09\x0a\x0b\x0c\x0d\x0e\
    \x0f\x10\x11\x12\x13\x14\x15\x16\x17\x18\x19\x40\x40\x40\x40\x40\
    \x40\x1a\x1b\x1c\x1d\x1e\x1f\x20\x21\x22\x23\x24\x25\x26\x27\x28\
    \x29\x2a\x2b\x2c\x2d\x2e\x2f\x30\x31\x32\x33\x40\x40\x40\x40\x40\
    \x40\x40\x40\x40\x40\x40\x40\x40\x40\x40\x40\x40\x40\x40\x40\x40\
    \x40\x40\x40\x40\x40\x40\x40\x40\x40\x40\x40\x40\x40\x40\x40\x40\
    \x40\x40\x40\x40\x40\x40\x40\x40\x40\x40\x40\x40\x40\x40\x40\x40\
    \x40\x40\x40\x40\x40\x40\x40\x40\x40\x40\x40\x40\x40\x40\x40\x40\
    \x40\x40\x40\x40\x40\x40\x40\x40\x40\x40\x40\x40\x40\x40\x40\x40\
    \x40\x40\x40\x40\x40\x40\x40\x40\x40\x40\x40\x40\x40\x40\x40\x40\
    \x40\x40\x40\x40\x40\x40\x40\x40\x40\x40\x40\x40\x40\x40\x40\x40\
    \x40\x40\x40\x40\x40\x40\x40\x40\x40\x40\x40\x40\x40\x40\x40\x40";

// The value of a base64 digit; 64 for any other byte. The table is lent: wherever the constant is named, it is laid on the stack anew.
fn value64(values: &[u8; 256], b: u8) -> u8
    requires { values.now ≡ tabulate base64.value64 256 }
    ensures { result ≡ base64.value64 b }
{
    values[b as usize]
}

// The base64 digit of a number below 64.
fn digit64(v: u8) -> u8
    requires { v < 64 }
    ensures { result ≡ spec.digit64 v }
{
    if v < 26 {
        b'A' + v
    } else if v < 52 {
        b'a' + (v - 26)
    } else if v < 62 {
        b'0' + (v - 52)
    } else if v == 62 {
        b'+'
    } else {
        b'/'
    }
}

// Writes a group: the digits of two bytes and of the first two bits of a third, and the fourth character.
fn put_group(to: &mut [u8], at: usize, a: u8, b: u8, c: u8, fourth: u8)
    requires { at + 4 ≤ length to.old }
    ensures { to.new ≡ overlay to.old at (base64.group a b c fourth) }
{
    to[at] = digit64(a / 4);
    to[at + 1] = digit64(a % 4 * 16 + b / 16);
    to[at + 2] = digit64(b % 16 * 4 + c / 64);
    to[at + 3] = fourth;
}

// Writes the base64 of a DHCID into `to`, from index `at` on: eleven groups of three bytes, and one of two.
pub fn put_base64(to: &mut [u8], at: usize, dhcid: &[u8])
    requires { (length dhcid.now ≡ 35) × (at + 48 ≤ length to.old) }
    ensures { to.new ≡ overlay to.old at (spec.base64 dhcid.now) }
{
    for k in 0..11 {
        let c = dhcid[3 * k + 2];
        let fourth = digit64(c % 64);
        put_group(to, at + 4 * k, dhcid[3 * k], dhcid[3 * k + 1], c, fourth);
    }
    put_group(to, at + 44, dhcid[33], dhcid[34], 0, PAD);
}

// A state in which no character of its form was read.
fn fresh(form: Form) -> DhcidWords
    ensures { reading.Fresh form result }
{
    DhcidWords {
        form,
        count: 0,
        pending: 0,
        bytes: [0u8; 35],
    }
}

// How far base64 has come, but for its bytes, which are written where they stand: the whole state would be copied for each character.
#[derive(Drop)]
struct Sextets {
    form: Form,
    count: u8,
    pending: u8,
}

fn no_sextets() -> Sextets
    ensures { result.form ≡ Form.Refused }
{
    Sextets {
        form: Form::Refused,
        count: 0,
        pending: 0,
    }
}

// Takes a base64 digit of value `v`, which is not the last character: the bits that then wait for the rest of their byte.
fn sextet(bytes: &mut [u8], count: u8, pending: u8, v: u8) -> u8
    requires { (v < 64) × (count < 47) × (length bytes.old ≡ 35) }
    ensures { (cs : List ℕ) → reading.Begun64 cs (reading.state_of Form.Base64 count pending bytes.old) → reading.Begun64 (cs ++ spec.digit64 v ∷ []) (reading.state_of Form.Base64 (count + 1) result bytes.new) }
{
    let at = (count / 4 * 3) as usize;
    match count % 4 {
        0 => v,
        1 => {
            bytes[at] = pending % 64 * 4 + v / 16;
            v % 16
        },
        2 => {
            bytes[at + 1] = pending % 16 * 16 + v / 4;
            v % 4
        },
        _ => {
            bytes[at + 2] = pending % 4 * 64 + v;
            0
        },
    }
}

// After the 48th character, which must be = and leave no bits that are set.
fn last_character(s: Sextets, b: u8) -> Sextets
    requires { s.count ≡ 47 }
    ensures { (cs bytes : List ℕ) → reading.Begun64 cs (reading.with_bytes s bytes) → reading.Text64 (cs ++ b ∷ []) (reading.with_bytes result bytes) }
{
    if b != PAD {
        return no_sextets();
    }
    if s.pending != 0 {
        return no_sextets();
    }
    Sextets {
        form: Form::Base64,
        count: 48,
        pending: 0,
    }
}

// After one character of base64.
fn base64_character(values: &[u8; 256], bytes: &mut [u8], s: Sextets, b: u8) -> Sextets
    requires { (values.now ≡ tabulate base64.value64 256) × (length bytes.old ≡ 35) }
    ensures { (cs : List ℕ) → reading.Text64 cs (reading.with_bytes s bytes.old) → reading.Text64 (cs ++ b ∷ []) (reading.with_bytes result bytes.new) }
{
    let count = s.count;
    if s.form != Form::Base64 {
        return s;
    }
    if count == 47 {
        return last_character(s, b);
    }
    if 47 < count {
        return no_sextets();
    }
    let v = value64(values, b);
    if 63 < v {
        return no_sextets();
    }
    let pending = sextet(bytes, count, s.pending, v);
    Sextets {
        form: Form::Base64,
        count: count + 1,
        pending,
    }
}

// Whether four values are base64 digits'.
fn are_digits(a: u8, b: u8, c: u8, d: u8) -> bool
    ensures { Decides result ((a < 64) × (b < 64) × (c < 64) × (d < 64)) }
{
    (a < 64) & (b < 64) & (c < 64) & (d < 64)
}

// Takes a whole group of base64, digits of the values `a` to `d`: three bytes.
fn put_quantum(bytes: &mut [u8], count: u8, a: u8, b: u8, c: u8, d: u8)
    requires { ((a < 64) × (b < 64) × (c < 64) × (d < 64)) × (count % 4 ≡ 0) × (count < 44) × (length bytes.old ≡ 35) }
    ensures { (cs : List ℕ) (p : ℕ) → reading.Begun64 cs (reading.state_of Form.Base64 count p bytes.old) → reading.Begun64 (cs ++ spec.digit64 a ∷ spec.digit64 b ∷ spec.digit64 c ∷ spec.digit64 d ∷ []) (reading.state_of Form.Base64 (count + 4) p bytes.new) }
{
    let at = (count / 4 * 3) as usize;
    bytes[at] = a * 4 + b / 16;
    bytes[at + 1] = b % 16 * 16 + c / 4;
    bytes[at + 2] = c % 4 * 64 + d;
}

// Takes the whole groups of digits that a word begins with, up to the last group of 35 bytes: how many characters they are.
fn read_quanta(values: &[u8; 256], bytes: &mut [u8], count: u8, word: &[u8]) -> u8
    requires { (values.now ≡ tabulate base64.value64 256) × (length bytes.old ≡ 35) }
    ensures { reading.Quanta64 count word.now result × ((f : Form) (p : ℕ) (cs : List ℕ) → reading.Text64 cs (reading.state_of f count p bytes.old) → reading.Text64 (cs ++ take result word.now) (reading.state_of f (count + result) p bytes.new)) }
{
    if count % 4 != 0 {
        return 0;
    }
    let mut passed = 0;
    for group in word.chunks_exact(4) {
        if 44 <= count + passed {
            return passed;
        }
        let a = value64(values, group[0]);
        let b = value64(values, group[1]);
        let c = value64(values, group[2]);
        let d = value64(values, group[3]);
        if !are_digits(a, b, c, d) {
            return passed;
        }
        put_quantum(bytes, count + passed, a, b, c, d);
        passed += 4;
    }
    passed
}

// The state after the characters of a word of base64: whole groups first, for speed, and what is left one by one.
fn base64_word(s: DhcidWords, word: &[u8]) -> DhcidWords
    ensures { (cs : List ℕ) → reading.Text64 cs s → reading.Text64 (cs ++ word.now) result }
{
    let values = VALUES64;
    let mut bytes = s.bytes;
    let passed = read_quanta(&values, &mut bytes, s.count, word);
    let mut sextets = Sextets {
        form: s.form,
        count: s.count + passed,
        pending: s.pending,
    };
    for &b in &word[passed as usize..] {
        sextets = base64_character(&values, &mut bytes, sextets, b);
    }
    DhcidWords {
        form: sextets.form,
        count: sextets.count,
        pending: sextets.pending,
        bytes,
    }
}

// The state after two hexadecimal digits, which are a byte.
fn hexadecimal_byte(s: DhcidWords, high: u8, low: u8) -> DhcidWords
    ensures { (ds : List ℕ) → reading.Text16 ds s → reading.Text16 (ds ++ high ∷ low ∷ []) result }
{
    let count = s.count;
    if s.form != Form::Digits {
        return s;
    }
    let x = digit_value(high);
    let y = digit_value(low);
    if 69 < count {
        return fresh(Form::Refused);
    }
    if 15 < x {
        return fresh(Form::Refused);
    }
    if 15 < y {
        return fresh(Form::Refused);
    }
    let mut bytes = s.bytes;
    let at = (count / 2) as usize;
    bytes[at] = x * 16 + y;
    DhcidWords {
        form: Form::Digits,
        count: count + 2,
        pending: 0,
        bytes,
    }
}

// The state after an even number of hexadecimal digits.
fn hexadecimal_digits(s: DhcidWords, word: &[u8]) -> DhcidWords
    requires { length word.now % 2 ≡ 0 }
    ensures { (ds : List ℕ) → reading.Text16 ds s → reading.Text16 (ds ++ word.now) result }
{
    let mut state = s;
    for pair in word.chunks_exact(2) {
        state = hexadecimal_byte(state, pair[0], pair[1]);
    }
    state
}

// Whether as many characters of a form were read as 35 bytes have.
fn is_complete(form: Form, count: u8) -> bool
    ensures { Decides result (((form ≡ Form.Base64) × (count ≡ 48)) ⊎ ((form ≡ Form.Digits) × (count ≡ 70))) }
{
    match form {
        Form::Base64 => count == 48,
        Form::Digits => count == 70,
        _ => false,
    }
}

// The state after the first word: the generic form's marker \#, or base64.
fn first_word(word: &[u8]) -> DhcidWords
    ensures { After (word.now ∷ []) result }
{
    if word == b"\\#".as_slice() {
        return fresh(Form::Marked);
    }
    base64_word(fresh(Form::Base64), word)
}

// The state after the word that follows the marker, and must be 35: as many bytes follow.
fn length_word(word: &[u8]) -> DhcidWords
    ensures { After (spec.marker ∷ word.now ∷ []) result }
{
    if word == b"35".as_slice() {
        return fresh(Form::Digits);
    }
    fresh(Form::Refused)
}

// The state after one word more of hexadecimal digits, which must be whole bytes.
fn hexadecimal_word(s: DhcidWords, word: &[u8]) -> DhcidWords
    requires { s.form ≡ Form.Digits }
    ensures { (ws : List (List ℕ)) → After ws s → After (ws ++ word.now ∷ []) result }
{
    if word.len() % 2 != 0 {
        return fresh(Form::Refused);
    }
    hexadecimal_digits(s, word)
}

impl DhcidWords {
    // The state before the first word.
    pub fn begin() -> Self
        ensures { After [] result }
    {
        fresh(Form::Nothing)
    }

    // The state after one word more.
    pub fn word(self, word: &[u8]) -> Self
        ensures { (ws : List (List ℕ)) → After ws self → After (ws ++ word.now ∷ []) result }
    {
        match self.form {
            Form::Nothing => first_word(word),
            Form::Base64 => base64_word(self, word),
            Form::Marked => length_word(word),
            Form::Digits => hexadecimal_word(self, word),
            Form::Refused => self,
        }
    }

    // The DHCID that the words spell, if they spell one.
    pub fn finish(self) -> Option<[u8; 35]>
        ensures { (ws : List (List ℕ)) → After ws self → Decodes (spec.SpellsDhcid ws) result }
    {
        let bytes = self.bytes;
        if !is_complete(self.form, self.count) {
            return None;
        }
        if !is_well_formed(&bytes) {
            return None;
        }
        Some(bytes)
    }
}
