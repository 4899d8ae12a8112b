// A book of names written, replayed, tidied and damaged. Each line of the input is a label and commands, which change a table and a book or look at them:
//
//     a C F P NAME B   add: the client, the family, the policy, the name and the last byte of the address; r is remove, c is clear
//     f                adds the names n00 to n63
//     n                the table becomes empty
//     w NAME           the block of the name, from the table, is put behind the book under the next number
//     e                the same for all names of the table in turn
//     m                the book gets no bytes
//     x I J V          byte J of block I becomes V
//     s I              block I gets the check of its bytes
//     l I J            the book's length becomes I blocks and J bytes
//     p R              the book replayed into R bytes
//     t R              the book tidied into R bytes
//     o                how many blocks of the book are sound
//
// A name is one label; client C has the DHCID of type C % 3 and 32 bytes 17 C. Each line of the output is the label and what the commands
// answer. Where p or t is refused, the bytes that were lent to be written are compared with those before it. A replayed table is compared with the table byte for
// byte; its names follow, with their flags and the last bytes of A and AAAA, and of a long one the names from the fourth to the 62nd are a dot each. A tidied book
// is compared with the book, and replayed. Eight bytes of SHA-256 stand for the bytes of a table or a book. What must be printed, in the file `stdout`,
// was written before this program first ran, from document 02 (K5, and K1 for what a remove leaves) and include/vichrelka.h ("The book of names"), with SHA-256
// as Python's hashlib has it.
#![tactic(auto)]

use base::Answer;
use block::seal;
use book_block::KIND;
use book_replay::{replay, sound_blocks, tidy};
use check::same;
use harness::{Line, STDIN, STDOUT, find, first, is_all, put_fitting, rest};
use hash::digest_of;
use slot_row::SLOTS;
use text::digit::digit_value;

// No fewer bytes than the input has.
const INPUT: usize = 8192;

// What stands in an area before a call.
const OLD: u8 = 170;

const TABLE: usize = slot_row::SIZE;

// Room for 68 blocks.
const BOOK: usize = 34816;

fn print(bytes: &[u8]) {
    io::write_all(STDOUT, bytes);
}

fn print_line(line: Line) {
    let bytes = line.bytes;
    print(first(&bytes, line.len));
}

fn print_either(test: bool, yes: &[u8], no: &[u8]) {
    if test {
        print(yes);
    } else {
        print(no);
    }
}

fn print_count(count: u64, what: &[u8]) {
    print_line(Line::begin().text(b"; ").number(count).text(what));
}

fn part(bytes: &[u8], at: usize, n: usize) -> &[u8] {
    first(rest(bytes, at), n)
}

// The byte at an index, 0 behind the end.
fn byte_at(bytes: &[u8], at: usize) -> u8 {
    if at < bytes.len() { bytes[at] } else { 0 }
}

// The bytes that stand for a table or a book.
fn with_digest(line: Line, bytes: &[u8]) -> Line {
    let digest = digest_of(bytes);
    line.text(b" ").hex(first(&digest, 8))
}

// The first of the words, and what is behind it.
fn head(words: &[u8]) -> &[u8] {
    first(words, find(words, 0, b' '))
}

fn tail(words: &[u8]) -> &[u8] {
    rest(words, find(words, 0, b' ') + 1)
}

// The number that a word is in decimal.
fn number(word: &[u8]) -> u32 {
    let mut n: u64 = 0;
    let mut i: usize = 0;
    while i < word.len() {
        n = (n * 10 + digit_value(word[i]) as u64) % 4294967296;
        i += 1;
    }
    n as u32
}

// Where byte J of block I stands, of the words I and J.
fn place(words: &[u8]) -> usize {
    block::SIZE * number(head(words)) as usize + number(head(tail(words))) as usize
}

// Puts the name that a word stands for into `out`, and answers how many bytes it has.
fn put_name(word: &[u8], out: &mut [u8]) -> usize {
    let size = (word.len() % 64) as u8;
    let start = put_fitting(out, 0, &[size]);
    let end = put_fitting(out, start, word);
    put_fitting(out, end, &[0])
}

fn dhcid_of(client: u8) -> [u8; 35] {
    let mut dhcid = [client % 16 * 17; 35];
    dhcid[0] = 0;
    dhcid[1] = client % 3;
    dhcid[2] = 1;
    dhcid
}

fn show_refusal(number: u32, lent: &[u8]) {
    print_line(Line::begin().text(b" refused ").number(number as u64));
    print_either(
        is_all(lent, OLD),
        b", all bytes as they were",
        b", bytes changed",
    );
}

// What is behind the first n bytes has to be as it was.
fn show_behind(area: &[u8], n: usize) {
    if !is_all(rest(area, n), OLD) {
        print(b", and more changed");
    }
}

// What a step answers.
fn show_step(answer: Answer) {
    match answer {
        Answer::Accepted(value) => print_line(Line::begin().text(b" ").number(value as u64)),
        Answer::Refused { number, offset: _ } => {
            print_line(Line::begin().text(b" refused ").number(number as u64))
        }
    }
}

// A step, but for its slices.
#[derive(Drop)]
struct Call {
    step: u8,
    client: u8,
    family: u32,
    policy: u32,
}

fn answer_of(call: Call, table: &mut [u8], name: &[u8], address: &[u8]) -> Answer {
    let dhcid = dhcid_of(call.client);
    if call.step == b'a' {
        print(b"; add");
        return table::add(table, name, &dhcid, call.family, address, call.policy);
    }
    if call.step == b'r' {
        print(b"; remove");
        return table::remove(table, name, &dhcid, call.family, address);
    }
    print(b"; clear");
    table::clear(table, name)
}

fn run_call(call: Call, table: &mut [u8], name: &[u8], last: u8) {
    if call.family == 6 {
        let mut address = [0u8; 16];
        address[0] = 32;
        address[1] = 1;
        address[2] = 13;
        address[3] = 184;
        address[15] = last;
        show_step(answer_of(call, table, name, &address));
    } else {
        show_step(answer_of(call, table, name, &[192, 0, 2, last]));
    }
}

fn run_step(command: &[u8], table: &mut [u8]) {
    let call = Call {
        step: byte_at(command, 0),
        client: digit_value(byte_at(command, 2)),
        family: digit_value(byte_at(command, 4)) as u32,
        policy: digit_value(byte_at(command, 6)) as u32,
    };
    // the name and the last byte of the address
    let words = rest(command, 8);
    let mut name = [0u8; 255];
    let n = put_name(head(words), &mut name);
    let last = (number(tail(words)) % 256) as u8;
    run_call(call, table, first(&name, n), last);
}

// Adds the names n00 to n63, with the client 1 and 192.0.2.7, and answers how many were new.
fn fill(table: &mut [u8]) -> u64 {
    let dhcid = dhcid_of(1);
    let mut count: u64 = 0;
    let mut i: u8 = 0;
    while i < 64 {
        let name = [3, b'n', b'0' + i / 10, b'0' + i % 10, 0];
        let answer = table::add(table, &name, &dhcid, 4, b"\xc0\x00\x02\x07", 0);
        if answer.for_c() == 0 {
            count += 1;
        }
        i += 1;
    }
    count
}

// The commands that change the table.
fn change_table(command: &[u8], table: &mut [u8]) {
    let kind = byte_at(command, 0);
    let words = tail(command);
    if kind == b'n' {
        let zeros = [0u8; TABLE];
        put_fitting(table, 0, &zeros);
    } else if kind == b'f' {
        let count = fill(table);
        print_count(count, b" times add 0");
    } else {
        run_step(command, table);
    }
}

// The block of a name under the next number, put behind the book; answers the new length.
fn append(table: &[u8], name: &[u8], book: &mut [u8], len: usize) -> usize {
    let mut block = [OLD; 512];
    let number = (len / block::SIZE % 4294967296) as u32;
    match book_block::write(table, name, number, &mut block) {
        Answer::Accepted(_) => put_fitting(book, len, &block),
        Answer::Refused { number, offset: _ } => {
            print(b"; block");
            show_refusal(number, &block);
            len
        }
    }
}

// The same, and what the block says.
fn append_named(table: &[u8], word: &[u8], book: &mut [u8], len: usize) -> usize {
    let mut name = [0u8; 255];
    let n = put_name(word, &mut name);
    let end = append(table, first(&name, n), book, len);
    let block = rest(first(book, end), len);
    print_line(
        Line::begin()
            .text(b"; block ")
            .number((len / block::SIZE) as u64)
            .text(b" of kind ")
            .number(byte_at(block, KIND) as u64),
    );
    end
}

// The blocks of all names in turn.
fn append_all(table: &[u8], book: &mut [u8], len: usize) -> usize {
    let mut end = len;
    let mut i: usize = 0;
    while i < SLOTS {
        let slot = part(table, slot::SIZE * i, slot::SIZE);
        let size = byte_at(slot, 0);
        if size == 0 {
            return end;
        }
        let next = append(table, part(slot, 1, size as usize), book, end);
        end = next;
        i += 1;
    }
    end
}

fn mend(book: &mut [u8], at: usize) {
    if at <= BOOK {
        if at + block::SIZE <= book.len() {
            seal(&mut book[at..at + block::SIZE]);
        }
    }
}

// The commands that change the book; answers its length.
fn change_book(command: &[u8], table: &[u8], book: &mut [u8], len: usize) -> usize {
    let kind = byte_at(command, 0);
    let words = tail(command);
    if kind == b'm' {
        return 0;
    }
    if kind == b'w' {
        return append_named(table, words, book, len);
    }
    if kind == b'e' {
        let end = append_all(table, book, len);
        let count = rest(first(book, end), len).len() / block::SIZE;
        print_count(count as u64, b" blocks in turn");
        return end;
    }
    if kind == b'x' {
        let value = (number(tail(tail(words))) % 256) as u8;
        put_fitting(book, place(words), &[value]);
        return len;
    }
    if kind == b's' {
        mend(book, place(words));
        return len;
    }
    place(words)
}

fn print_slot(slot: &[u8]) {
    let label = rest(first(slot, byte_at(slot, 0) as usize), 2);
    let flagged = Line::begin()
        .text(b" [")
        .text(label)
        .text(b" ")
        .number(byte_at(slot, 256) as u64);
    let addressed = flagged.text(b" ").number(byte_at(slot, 260) as u64);
    print_line(
        addressed
            .text(b" ")
            .number(byte_at(slot, 276) as u64)
            .text(b"]"),
    );
}

fn print_slots(table: &[u8]) {
    let mut i: usize = 0;
    while i < SLOTS {
        let slot = part(table, slot::SIZE * i, slot::SIZE);
        if byte_at(slot, 0) == 0 {
            return;
        }
        if (3 <= i) & (i < 62) {
            print(b".");
        } else {
            print_slot(slot);
        }
        i += 1;
    }
}

fn show_replayed(value: u32, table: &[u8], area: &[u8]) {
    let replayed = first(area, TABLE);
    print_line(Line::begin().text(b" ").number(value as u64).text(b","));
    print_either(same(replayed, table), b" the same table", b" another table");
    show_behind(area, TABLE);
    print_line(with_digest(Line::begin(), replayed));
    print_slots(replayed);
}

// No line of the input asks for more room than there is: here, and in a tidy.
fn replay_into(area: &mut [u8], room: usize, book: &[u8]) -> Answer {
    if area.len() < room {
        return Answer::Accepted(1);
    }
    replay(&mut area[0..room], book)
}

fn look_replay(table: &[u8], book: &[u8], room: usize) {
    let mut area = [OLD; BOOK];
    print(b"; replay");
    match replay_into(&mut area, room, book) {
        Answer::Accepted(value) => show_replayed(value, table, &area),
        Answer::Refused { number, offset: _ } => show_refusal(number, &area),
    }
}

fn replay_tidied(table: &[u8], written: &[u8]) {
    let mut again = [OLD; TABLE];
    print(b", replay:");
    match replay(&mut again, written) {
        Answer::Accepted(_) => {
            print_either(same(&again, table), b" the same table", b" another table")
        }
        Answer::Refused { number, offset: _ } => show_refusal(number, &again),
    }
}

fn show_tidied(value: u32, table: &[u8], book: &[u8], area: &[u8]) {
    let written = first(area, value as usize);
    print(b"; tidied,");
    let line = Line::begin().text(b" ").number(value as u64);
    print_line(with_digest(line.text(b" bytes"), written));
    print_either(same(written, book), b", as the book", b", not as the book");
    show_behind(area, value as usize);
    replay_tidied(table, written);
}

fn tidy_into(book: &[u8], area: &mut [u8], room: usize) -> Answer {
    if area.len() < room {
        return Answer::Accepted(1);
    }
    tidy(book, &mut area[0..room])
}

fn look_tidy(table: &[u8], book: &[u8], room: usize) {
    let mut area = [OLD; BOOK];
    match tidy_into(book, &mut area, room) {
        Answer::Accepted(value) => show_tidied(value, table, book, &area),
        Answer::Refused { number, offset: _ } => {
            print(b"; tidy");
            show_refusal(number, &area);
        }
    }
}

// The commands that change nothing.
fn look(command: &[u8], table: &[u8], book: &[u8]) {
    let kind = byte_at(command, 0);
    let words = tail(command);
    if kind == b'p' {
        look_replay(table, book, number(words) as usize);
    } else if kind == b't' {
        look_tidy(table, book, number(words) as usize);
    } else {
        print_count(sound_blocks(book) as u64, b" sound");
    }
}

// Runs one command, and answers the length of the book.
fn run(command: &[u8], table: &mut [u8], book: &mut [u8], len: usize) -> usize {
    match byte_at(command, 0) {
        b'n' | b'a' | b'r' | b'c' | b'f' => {
            change_table(command, table);
            len
        }
        b'm' | b'w' | b'e' | b'x' | b's' | b'l' => change_book(command, table, book, len),
        _ => {
            look(command, table, first(book, len));
            len
        }
    }
}

// A line behind its label.
fn run_commands(line: &[u8], table: &mut [u8], book: &mut [u8], len: usize) -> usize {
    let mut size = len;
    let mut at: usize = 0;
    while at < line.len() {
        let end = find(line, at, b';');
        let next = run(&line[at..end], table, book, size);
        size = next;
        at = end + 1;
    }
    size
}

fn run_line(line: &[u8], table: &mut [u8], book: &mut [u8], len: usize) -> usize {
    let label = find(line, 0, b';');
    print(first(line, label));
    let size = run_commands(rest(line, label + 1), table, book, len);
    print(b"\n");
    size
}

fn run_all(text: &[u8], table: &mut [u8], book: &mut [u8]) {
    let mut size: usize = 0;
    let mut at: usize = 0;
    while at < text.len() {
        let end = find(text, at, b'\n');
        let next = run_line(&text[at..end], table, book, size);
        size = next;
        at = end + 1;
    }
}

fn main() {
    let mut text = [0u8; INPUT];
    let n = io::read_full(STDIN, &mut text);
    let mut table = [0u8; TABLE];
    let mut book = [0u8; BOOK];
    run_all(first(&text, n), &mut table, &mut book);
}
