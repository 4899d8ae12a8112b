// The digests of known messages, a line each. What each line must be stands in the file `stdout`, written before this program first ran:
// the first four from NIST's examples for FIPS 180-4 (the empty message from NIST's test vectors), the others by GNU coreutils 9.1's
// sha256sum, with which Python 3.11's hashlib (OpenSSL 3.0) agrees. The others are the bytes 0, 1, 2 and so on, as many as the line says:
// lengths on both sides of where the padding takes another block.
#![tactic(auto)]

ghost use Rattle.std.specs.Prelude.{◌≤◌};

use harness::{Line, STDOUT, first};
use hash::{Sha256, digest_of};

fn print(line: Line) {
    let bytes = line.bytes;
    io::write_all(STDOUT, first(&bytes, line.len));
}

fn show(label: &[u8], digest: [u8; 32]) {
    print(Line::begin().text(label).hex(&digest).text(b"\n"));
}

// A million times the letter a: pieces of 1, 2, 3 and so on up to 1,413 bytes, and the 1,009 that are left.
fn million() -> [u8; 32] {
    let a = [97u8; 1413];
    let mut s = Sha256::begin();
    let mut n: usize = 1;
    while n <= 1413 {
        s = s.take(&a[..n]);
        n += 1;
    }
    s = s.take(&a[..1009]);
    s.finish().digest()
}

// The digest of the bytes 0, 1, 2, .., n of them.
fn counted(n: usize) -> [u8; 32]
    requires { n ≤ 128 }
{
    let mut bytes = [0u8; 128];
    let mut i: u8 = 0;
    while i < 128 {
        bytes[i as usize] = i;
        i += 1;
    }
    digest_of(&bytes[..n])
}

fn main() {
    show(b"empty: ", digest_of(b""));
    show(b"abc: ", digest_of(b"abc"));
    show(
        b"448 bits: ",
        digest_of(b"abcdbcdecdefdefgefghfghighijhijkijkljklmklmnlmnomnopnopq"),
    );
    show(b"a million a: ", million());
    show(b"55 bytes: ", counted(55));
    show(b"56 bytes: ", counted(56));
    show(b"63 bytes: ", counted(63));
    show(b"64 bytes: ", counted(64));
    show(b"65 bytes: ", counted(65));
    show(b"119 bytes: ", counted(119));
    show(b"120 bytes: ", counted(120));
    show(b"128 bytes: ", counted(128));
}
