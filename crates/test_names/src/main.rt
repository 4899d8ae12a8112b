// Names that the papers print, read and written. What each line must be stands in the file `stdout`, written before this program first ran, from
// RFC 1035 (2.3.1, 4.1.4), RFC 4034 (6.1), RFC 4343 (2, 2.2, 4.1) and document 01 ("Both sides of each edge"; docs/RULES.md, 9), with document 01's
// rules (docs/RULES.md, 3) for what is no name: an escape, a star, a missing dot, an empty label. A text is followed by its canonical wire form, wire
// bytes by their text.
#![tactic(auto)]

ghost use Rattle.std.specs.Prelude.{◌≤◌};

use harness::{Line, STDOUT, find, first};
use name::wire::{is_proper, matches, put_canonical};
use name_text::{from_text, put_text};

fn print(line: Line) {
    let bytes = line.bytes;
    io::write_all(STDOUT, first(&bytes, line.len));
}

fn text(word: &[u8]) {
    let line = Line::begin().text(word).text(b": ");
    match from_text(word) {
        Some(name) => print(line.hex(name.as_slice()).text(b"\n")),
        None => print(line.text(b"no name\n")),
    }
}

// The line, and a name's canonical form in text behind it.
fn with_text(line: Line, name: &[u8]) -> Line {
    let mut bytes = [0u8; 255];
    put_canonical(&mut bytes, 0, first(name, 255));
    let mut word = [0u8; 255];
    put_text(&mut word, 0, first(&bytes, name.len()));
    // behind the text there are zeros
    line.text(first(&word, find(&word, 0, 0)))
}

fn wire(label: &[u8], bytes: &[u8]) {
    let line = Line::begin().text(label).text(b": ");
    if is_proper(bytes) {
        print(with_text(line, bytes).text(b"\n"));
    } else {
        print(line.text(b"not proper\n"));
    }
}

// Four labels of the letter a, the first three of 63 bytes and the last of `last`.
fn four_labels(label: &[u8], last: u8)
    requires { last ≤ 62 }
{
    let mut bytes = [97u8; 256];
    bytes[0] = 63;
    bytes[64] = 63;
    bytes[128] = 63;
    bytes[192] = last;
    let end = 193 + last as usize;
    bytes[end] = 0;
    wire(label, first(&bytes, end + 1));
}

// Is the name in text `a` the same as the one in text `b`?
fn compare(a: &[u8], b: &[u8]) {
    let line = Line::begin().text(a).text(b" and ").text(b);
    let same = match (from_text(a), from_text(b)) {
        (Some(x), Some(y)) => matches(x.as_slice(), y.as_slice()),
        _ => false,
    };
    if same {
        print(line.text(b": the same\n"));
    } else {
        print(line.text(b": not the same\n"));
    }
}

fn main() {
    text(b"A.ISI.EDU.");
    text(b"XX.LCS.MIT.EDU.");
    text(b"SRI-NIC.ARPA.");
    text(b"example.");
    text(b"a.example.");
    text(b"yljkjljk.a.example.");
    text(b"Z.a.example.");
    text(b"zABC.a.EXAMPLE.");
    text(b"z.example.");
    text(b"\\001.z.example.");
    text(b"*.z.example.");
    text(b"\\200.z.example.");
    text(b"foo.example.net.");
    text(b"Foo.ExamplE.net.");
    text(b"xyz.BAR.example.");
    text(b"XYZ.BAR.example.");
    text(b"Donald\\032E\\.\\032Eastlake\\0323rd.example.");
    text(b"_dhcp.tank-a.example.");
    text(b"example");
    text(b".");
    text(b".example.");
    text(b"a..example.");
    text(b"");
    edges();
    compare(b"foo.example.net.", b"Foo.ExamplE.net.");
    compare(b"xyz.BAR.example.", b"foo.bar.example.");
}

fn edges() {
    wire(b"03 43 68 69 00", b"\x03Chi\x00");
    wire(b"00", b"\x00");
    four_labels(b"63 63 63 61", 61);
    four_labels(b"63 63 63 62", 62);
    wire(b"RFC 1035 4.1.4, offset 20", b"\x01F\x03ISI\x04ARPA\x00");
    wire(b"RFC 1035 4.1.4, offset 40", b"\x03FOO\xc0\x14");
    wire(b"RFC 1035 4.1.4, offset 92", b"\x00");
}
