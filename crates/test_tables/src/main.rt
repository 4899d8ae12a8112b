// Every answer and every refusal of the table's steps. Each line of the input is a label and a call: a, r or c for add, remove or clear, the client, the family,
// the policy, the state of the table, the name and the address in hexadecimal. Client 12 has the DHCID of type 1 and 32 bytes 22; one of type 3 has none. State
// ! is a table whose last byte is 1 for this call, < one without its last byte. A label with no call adds the names 00 to 62. The table holds at first the name h,
// kept by hand, and the name g with a DHCID alone. Each line of the output is the label and the answer; what it must be, in the file `stdout`, was written before
// this program first ran from document 01 ("Refusal numbers", "The table", the last of "Slips we have seen"; docs/RULES.md, 2.2, 7 and 9), and what a remove
// leaves from document 02, K1 (docs/RULES.md, 7.4), before the code had that rule. "12 before 40" has both faults, and all the later ones of the arguments too.
// After an accepted call come the used slots: the name, the flags (1 for an A, 2 for an AAAA, 4 for a DHCID), A, AAAA and the first bytes of the DHCID, where -
// is zeros alone; of a long table the slots from the fourth to the 62nd are a dot each. After a refused one all bytes are compared with those before it.
#![tactic(auto)]

ghost use Rattle.std.specs.Prelude.{◌≡◌, length};

use base::Answer;
use base::slice::put;
use check::same;
use harness::{Line, STDIN, STDOUT, find, first, is_all, put_fitting, rest};
use slot_row::SIZE;
use text::digit::digit_value;

fn print(bytes: &[u8]) {
    io::write_all(STDOUT, bytes);
}

fn print_line(line: Line) {
    let bytes = line.bytes;
    print(first(&bytes, line.len));
}

fn with_field(line: Line, bytes: &[u8]) -> Line {
    if is_all(bytes, 0) {
        return line.text(b" -");
    }
    line.text(b" ").hex(bytes)
}

fn with_flags(line: Line, flags: u8) -> Line {
    line.text(b" ").number(flags as u64)
}

// The name that begins with its length.
fn with_name(line: Line, slot: &[u8], len: u8) -> Line {
    line.text(b" [").hex(rest(first(slot, 1 + len as usize), 1))
}

fn print_slot(slot: &[u8])
    requires { length slot.now ≡ 312 }
{
    let named = with_flags(with_name(Line::begin(), slot, slot[0]), slot[256]);
    let addressed = with_field(with_field(named, &slot[257..261]), &slot[261..277]);
    print_line(with_field(addressed, &slot[277..281]).text(b"]"));
}

fn print_slots(table: &[u8]) {
    let mut i: usize = 0;
    while i < 64 {
        let slot = first(rest(table, slot::SIZE * i), slot::SIZE);
        if slot.len() < slot::SIZE {
            return;
        }
        if slot[0] == 0 {
            return;
        }
        if (3 <= i) & (i < 62) {
            print(b".");
        } else {
            print_slot(slot);
        }
        i += 1;
    }
}

// The answer, and the table that it left or the comparison with the bytes before the call.
fn show(answer: Answer, before: &[u8], table: &[u8]) {
    match answer {
        Answer::Accepted(value) => {
            print_line(Line::begin().text(b": ok ").number(value as u64));
            print_slots(table);
        }
        Answer::Refused { number, offset: _ } => {
            print_line(Line::begin().text(b": refused ").number(number as u64));
            if same(first(before, table.len()), table) {
                print(b", all bytes as they were");
            } else {
                print(b", bytes changed");
            }
        }
    }
    print(b"\n");
}

// The bytes of a table, from the first place on; a longer slice is no table.
fn copy(table: &[u8]) -> [u8; 19968] {
    let mut bytes = [0u8; 19968];
    if table.len() <= SIZE {
        put(&mut bytes, 0, table);
    }
    bytes
}

fn dhcid_of(client: u8) -> [u8; 35] {
    let mut dhcid = [client % 16 * 17; 35];
    dhcid[0] = 0;
    dhcid[1] = client / 16;
    dhcid[2] = 1;
    dhcid
}

// A call, but for its slices.
#[derive(Drop)]
struct Call {
    step: u8,
    client: u8,
    family: u32,
    policy: u32,
}

fn answer_of(call: Call, table: &mut [u8], name: &[u8], address: &[u8]) -> Answer {
    let dhcid = dhcid_of(call.client);
    if call.step == b'a' {
        return table::add(table, name, &dhcid, call.family, address, call.policy);
    }
    if call.step == b'r' {
        return table::remove(table, name, &dhcid, call.family, address);
    }
    table::clear(table, name)
}

fn run(call: Call, table: &mut [u8], name: &[u8], address: &[u8]) {
    let before = copy(table);
    let answer = answer_of(call, table, name, address);
    show(answer, &before, table);
}

fn put_last(table: &mut [u8], b: u8) {
    let n = table.len();
    if 0 < n {
        table[n - 1] = b;
    }
}

fn run_without_last(call: Call, table: &mut [u8], name: &[u8], address: &[u8]) {
    let n = table.len();
    if 0 < n {
        run(call, &mut table[..n - 1], name, address);
    }
}

fn run_at(state: u8, call: Call, table: &mut [u8], name: &[u8], address: &[u8]) {
    if state == b'!' {
        put_last(table, 1);
        run(call, table, name, address);
        put_last(table, 0);
    } else if state == b'<' {
        run_without_last(call, table, name, address);
    } else {
        run(call, table, name, address);
    }
}

// Adds the names 00 to 62, with the client 01 and 192.0.2.7, and answers how many were new.
fn fill(table: &mut [u8]) -> u64 {
    let dhcid = dhcid_of(0x01);
    let mut count: u64 = 0;
    let mut i: u8 = 0;
    while i < 63 {
        let name = [2, b'0' + i / 10, b'0' + i % 10, 0];
        let answer = table::add(table, &name, &dhcid, 4, b"\xc0\x00\x02\x07", 0);
        if answer.for_c() == 0 {
            count += 1;
        }
        i += 1;
    }
    count
}

fn fill_up(table: &mut [u8]) {
    let count = fill(table);
    print_line(Line::begin().text(b": ").number(count).text(b" times ok 0"));
    print_slots(table);
    print(b"\n");
}

// The byte that has these two digits.
fn byte(high: u8, low: u8) -> u8 {
    digit_value(high) % 16 * 16 + digit_value(low) % 16
}

// Puts the bytes that the word has two digits each for into `out`, as far as there is room, and answers how many there are.
fn make(word: &[u8], out: &mut [u8]) -> usize {
    let mut n: usize = 0;
    let mut i: usize = 1;
    while i < word.len() {
        n = put_fitting(out, n, &[byte(word[i - 1], word[i])]);
        i += 2;
    }
    n
}

// The name, a blank and the address.
fn run_words(state: u8, call: Call, table: &mut [u8], words: &[u8]) {
    let blank = find(words, 0, b' ');
    let mut name = [0u8; 32];
    let mut address = [0u8; 32];
    let n = make(first(words, blank), &mut name);
    let m = make(rest(words, blank + 1), &mut address);
    run_at(state, call, table, first(&name, n), first(&address, m));
}

// A line behind its label: where there is nothing, the names 00 to 62.
fn run_fields(fields: &[u8], table: &mut [u8]) {
    if fields.len() < 11 {
        fill_up(table);
        return;
    }
    let call = Call {
        step: fields[0],
        client: byte(fields[2], fields[3]),
        family: digit_value(fields[5]) as u32,
        policy: digit_value(fields[7]) as u32,
    };
    run_words(fields[9], call, table, rest(fields, 11));
}

fn run_line(line: &[u8], table: &mut [u8]) {
    let label = find(line, 0, b';');
    print(first(line, label));
    if label < line.len() {
        run_fields(rest(line, label + 1), table);
    }
}

fn run_all(text: &[u8], table: &mut [u8]) {
    let mut at: usize = 0;
    while at < text.len() {
        let end = find(text, at, b'\n');
        run_line(&text[at..end], table);
        at = end + 1;
    }
}

// The name h with an A alone, 192.0.2.9, and the name g with the DHCID of the client 00 alone, whose digest is zeros: no call makes such names.
fn keep_by_hand(table: &mut [u8])
    requires { length table.old ≡ 19968 }
{
    put(table, 0, b"\x03\x01h\x00");
    put(table, 256, b"\x01\xc0\x00\x02\x09");
    put(table, 312, b"\x03\x01g\x00");
    put(table, 568, b"\x04");
    put(table, 591, b"\x01");
}

fn main() {
    let mut text = io::buffer();
    let n = io::read_full(STDIN, &mut text);
    let mut table = [0u8; 19968];
    keep_by_hand(&mut table);
    run_all(first(&text, n), &mut table);
}
