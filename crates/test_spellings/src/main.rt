// How record data are spelled: each text is read, and followed by its bytes in hexadecimal and by the text that is written for them. What each line must
// be stands in the file `stdout`, written before this program first ran: the DHCIDs from the hexadecimal forms of RFC 4701's three examples (3.6), base64 by
// Python's base64, addresses by Python's ipaddress, and "no" by document 01's rules (docs/RULES.md, 5.3 and 6). RFC 4701 in print has its base64
// right. Its French translation does not: example 1 has I for l before OjxfN, which spells another DHCID (a line here), example 2 has I for l in
// UDlW, and example 3 a letter too many in VytcKD. The RFC's generic forms are printed in words of 57 and 13 digits, which RFC 3597 does not allow (a
// line here).
#![tactic(auto)]

use address::{a_length, put_a, put_aaaa, read_a, read_aaaa};
use dhcid_text::{DhcidWords, put_base64};
use harness::{Line, STDOUT, first};

fn print(line: Line) {
    let bytes = line.bytes;
    io::write_all(STDOUT, first(&bytes, line.len));
}

// What was read, and the text that is written for it.
fn print_read(line: Line, bytes: &[u8], written: &[u8]) {
    print(
        line.text(b": ")
            .hex(bytes)
            .text(b" ")
            .text(written)
            .text(b"\n"),
    );
}

fn print_a(line: Line, bytes: &[u8; 4]) {
    let mut written = [0u8; 15];
    let n = a_length(bytes);
    if n <= 15 {
        put_a(&mut written, 0, bytes);
        print_read(line, bytes, first(&written, n));
    }
}

fn a(word: &[u8]) {
    let line = Line::begin().text(b"A ").text(word);
    match read_a(word) {
        Some(bytes) => print_a(line, &bytes),
        None => print(line.text(b": no address\n")),
    }
}

fn aaaa(word: &[u8]) {
    let line = Line::begin().text(b"AAAA ").text(word);
    match read_aaaa(word) {
        Some(bytes) => {
            let mut written = [0u8; 39];
            put_aaaa(&mut written, 0, &bytes);
            print_read(line, &bytes, &written);
        }
        None => print(line.text(b": no address\n")),
    }
}

// The words are parted by single blanks; of no bytes there is no word.
fn read_words(words: &[u8]) -> Option<[u8; 35]> {
    let mut state = DhcidWords::begin();
    if !words.is_empty() {
        for word in words.split(|b| *b == b' ') {
            state = state.word(word);
        }
    }
    state.finish()
}

fn dhcid(words: &[u8]) {
    let line = Line::begin().text(b"DHCID ").text(words);
    match read_words(words) {
        Some(bytes) => {
            let mut written = [0u8; 48];
            put_base64(&mut written, 0, &bytes);
            print_read(line, &bytes, &written);
        }
        None => print(line.text(b": no DHCID\n")),
    }
}

fn addresses() {
    a(b"192.0.2.2");
    a(b"0.0.0.0");
    a(b"255.255.255.255");
    a(b"9.10.99.100");
    a(b"256.0.0.1");
    a(b"192.0.2.02");
    a(b"00.0.0.0");
    a(b"192.0.2");
    a(b"192.0.2.2.1");
    a(b"192..2.2");
    a(b"192.0.2.");
    a(b".0.2.2");
    a(b"192.0.2.x");
    a(b"");
    aaaa(b"2001:DB8:0:0:0:0:1234:5678");
    aaaa(b"2001:0db8:0000:0000:0000:0000:1234:5678");
    aaaa(b"ABCD:EF01:2345:6789:abcd:ef01:2345:6789");
    aaaa(b"0:0:0:0:0:0:0:1");
    aaaa(b"2001:DB8:0:0:0:1234:5678");
    aaaa(b"2001:DB8:0:0:0:0:0:1234:5678");
    aaaa(b"2001:DB8::1234:5678");
    aaaa(b"2001:DB8:0:0:0:0:1234:56789");
    aaaa(b"2001:DB8:0:0:0:0:1234:567g");
    aaaa(b"2001:DB8:0:0:0:0:1234:");
    aaaa(b"");
}

fn dhcids() {
    dhcid(b"AAIBY2/AuCccgoJbsaxcQc9TUapptP69l OjxfNuVAA2kjEA=");
    dhcid(b"AAEBOSD+XR3Os/0LozeXVqcNc7FwCfQdW L3b/NaiUDlW2No=");
    dhcid(b"AAABxLmlskllE0MVjd57zHcWmEH3pCQ6V ytcKD//7es/deY=");
    dhcid(b"\\# 35 000201636fc0b8271c82825bb1ac5c41cf5351aa69b4febd94e8f17cdb95000da48c40");
    dhcid(b"\\# 35 0001013920fe5d1dceb3fd0ba3379756a70d73b17009f41d58bddbfcd6a2503956d8da");
    dhcid(b"\\# 35 000001c4b9a5b249651343158dde7bcc77169841f7a4243a572b5c283fffedeb3f75e6");
    dhcid(b"\\# 35 000201636fc0b8271c82825bb1ac5c41cf5351aa69b4febd94e8f17cd b95000da48c40");
    dhcid(b"\\# 35 000201636fc0b8271c82825bb1ac5c41cf5351aa69b4febd94e8f17c DB95000DA48C40");
    dhcid(
        b"A A I B Y 2 / A u C c c g o J b s a x c Q c 9 T U a p p t P 6 9 l O j x f N u V A A 2 k j E A =",
    );
    dhcid(b"AAIBY2/AuCccgoJbsaxcQc9TUapptP69lOjxfNuVAA2kjEB=");
    dhcid(b"AAIBY2/AuCccgoJbsaxcQc9TUapptP69IOjxfNuVAA2kjEA=");
    dhcid(b"AAABxLmlskllE0MVjd57zHcWmEH3pCQ6VyticKD//7es/deY=");
    dhcid(b"AAIBY2/AuCccgoJbsaxcQc9TUapptP69l");
    dhcid(b"AAIBY2/AuCccgoJbsaxcQc9TUapptP69l=OjxfNuVAA2kjA=");
    dhcid(b"AAIBY2/AuCccgoJbsaxcQc9TUapptP69lOjxfNuVAA2kjA==");
    dhcid(b"AAIBY2/AuCccgoJbsaxcQc9TUapptP69lOjxfNuVAA2kjEAA");
    dhcid(b"AAICY2/AuCccgoJbsaxcQc9TUapptP69lOjxfNuVAA2kjEA=");
    dhcid(b"AAMBY2/AuCccgoJbsaxcQc9TUapptP69lOjxfNuVAA2kjEA=");
    dhcid(b"\\# 34 000201636fc0b8271c82825bb1ac5c41cf5351aa69b4febd94e8f17cdb95000da48c");
    dhcid(b"\\# 35 000201636fc0b8271c82825bb1ac5c41cf5351aa69b4febd94e8f17cdb95000da48c");
    dhcid(b"\\# 35 000201636fc0b8271c82825bb1ac5c41cf5351aa69b4febd94e8f17cdb95000da48c4000");
    dhcid(b"");
}

fn main() {
    addresses();
    dhcids();
}
