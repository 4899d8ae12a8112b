// DHCP messages, read. Each line of the input is a label, the family (4 or 6) and the message in hexadecimal, where 00*25 stands for 25 bytes of 0; each line
// of the output is the label and the answer: the refusal; or the identifier's type, its two parts and the name, each part as its start and its length. The
// messages are laid out by RFC 2131 and 2132 and RFC 8415, and the answers, in the file `stdout`, were written from document 01 (docs/RULES.md, 3.4,
// 4 and 5.1) before this program first ran: both sides of each edge, and for each two neighbours in a family's order of refusals a message with both
// faults. A line with a setting and a site's name too is answered with the chosen name, the number of bytes written or the refusal, and the output's
// bytes. A line without a message is the heading of a section; RFC 4701's three examples (3.6.1 to 3.6.3, in hexadecimal) have one of their own.
#![tactic(auto)]

ghost use Rattle.std.specs.Prelude.{◌<◌, length};

use base::Answer;
use dhcid::{Chosen, choose, put_dhcid};
use harness::{Line, STDIN, STDOUT, find, first, put_fitting, rest};
use message::{Part, Request};
use message4::read4;
use message6::read6;
use text::digit::digit_value;

fn print(bytes: &[u8]) {
    io::write_all(STDOUT, bytes);
}

fn print_line(line: Line) {
    let bytes = line.bytes;
    print(first(&bytes, line.len));
}

const LINE_END: u8 = 10;

fn with_part(line: Line, part: Part) -> Line {
    line.text(b" ")
        .number(part.start as u64)
        .text(b"+")
        .number(part.len as u64)
}

fn with_request(line: Line, request: Request) -> Line {
    if request.refusal != 0 {
        return line.text(b": refused ").number(request.refusal as u64);
    }
    let id_head = request.id_head;
    let id = request.id;
    let typed = line.text(b": type ").number(request.id_type as u64);
    let identified = with_part(with_part(typed.text(b" id"), id_head), id).text(b" name");
    if request.has_name {
        let name = request.name;
        return with_part(identified, name);
    }
    identified.text(b" none")
}

// A message that is being made: how many bytes it has, and what the next character goes on.
#[derive(Clone, Copy)]
struct Draft {
    len: usize,
    last: u8,
    // the first of two digits was read, and is `last`
    half: bool,
    // a * was read, and `count` is the number after it so far
    counting: bool,
    count: usize,
}

// Puts the byte b, which stands once already, from `len` on until there are so many of it, as far as there is room. Answers where it ends.
fn put_times(out: &mut [u8], len: usize, b: u8, times: usize) -> usize {
    let mut end = len;
    let mut n: usize = 1;
    while n < times {
        end = put_fitting(out, end, &[b]);
        n += 1;
    }
    end
}

// A message of so many bytes, and nothing that goes on.
fn drafted(len: usize, last: u8) -> Draft {
    Draft {
        len: len,
        last: last,
        half: false,
        counting: false,
        count: 0,
    }
}

fn counting(d: Draft, count: usize) -> Draft {
    Draft {
        len: d.len,
        last: d.last,
        half: false,
        counting: true,
        count: count,
    }
}

fn with_digit(out: &mut [u8], d: Draft, v: u8) -> Draft {
    if !d.half {
        return Draft {
            len: d.len,
            last: v,
            half: true,
            counting: false,
            count: 0,
        };
    }
    let b = (d.last % 16) * 16 + v % 16;
    drafted(put_fitting(out, d.len, &[b]), b)
}

// The message with one character more.
fn with_character(out: &mut [u8], d: Draft, c: u8) -> Draft {
    let v = digit_value(c);
    if c == b'*' {
        return counting(d, 0);
    }
    if !d.counting {
        if v < 16 {
            return with_digit(out, d, v);
        }
        return d;
    }
    if v < 10 {
        return counting(d, d.count % 10000 * 10 + v as usize);
    }
    // the number is over
    drafted(put_times(out, d.len, d.last, d.count), d.last)
}

// Puts the message that a line tells into `out`: how many bytes it has.
fn make(line: &[u8], out: &mut [u8]) -> usize {
    let mut d = drafted(0, 0);
    let mut i: usize = 0;
    while i < line.len() {
        let next = with_character(out, d, line[i]);
        d = next;
        i += 1;
    }
    let last = with_character(out, d, LINE_END);
    last.len
}

fn with_source(line: Line, chosen: Chosen) -> Line {
    if chosen.refusal != 0 {
        return line;
    }
    let part = chosen.part;
    if chosen.from_site {
        return with_part(line.text(b" site"), part);
    }
    with_part(line.text(b" message"), part)
}

fn with_answer(line: Line, answer: Answer) -> Line {
    match answer {
        Answer::Accepted(n) => line.text(b" wrote ").number(n as u64),
        Answer::Refused { number, offset: _ } => line.text(b" refused ").number(number as u64),
    }
}

// The chosen name, the DHCID's answer, and the output's bytes.
fn print_dhcid<'a>(family: u32, setting: u32, message: &'a [u8], site: &'a [u8], out: &mut [u8]) {
    let chosen = with_source(
        Line::begin().text(b":"),
        choose(family, setting, message, site),
    );
    let answered = with_answer(chosen, put_dhcid(family, setting, message, site, out));
    print_line(answered.text(b" ").hex(out).text(b"\n"));
}

// With an output of 36 bytes, or of 34, that holds bytes 238.
fn show_dhcid<'a>(family: u32, setting: u32, is_short: bool, message: &'a [u8], site: &'a [u8]) {
    if is_short {
        let mut out = [238u8; 34];
        print_dhcid(family, setting, message, site, &mut out);
    } else {
        let mut out = [238u8; 36];
        print_dhcid(family, setting, message, site, &mut out);
    }
}

// The answer to a message of either family.
fn read(family: u8, message: &[u8]) -> Request {
    if family == b'4' {
        return read4(message);
    }
    read6(message)
}

// A line behind its label: the family, a blank, and the message.
fn show_message(line: &[u8], room: &mut [u8]) {
    if line.len() < 2 {
        print(b": no message\n");
        return;
    }
    let n = make(rest(line, 2), room);
    print_line(with_request(Line::begin(), read(line[0], first(room, n))).text(b"\n"));
}

// The family, a blank, the setting, . or - for the output, a blank, and the site's name; behind `middle` the message.
fn show_named(line: &[u8], middle: usize, room: &mut [u8])
    requires { middle < length line.now }
{
    if middle < 5 {
        print(b": no message\n");
        return;
    }
    let family = digit_value(line[0]) as u32;
    let setting = digit_value(line[2]) as u32;
    let is_short = line[3] == b'-';
    let mut site = io::buffer();
    let k = make(rest(first(line, middle), 5), &mut site);
    let n = make(rest(line, middle + 1), room);
    show_dhcid(family, setting, is_short, first(room, n), first(&site, k));
}

fn show_rest(line: &[u8], room: &mut [u8]) {
    let middle = find(line, 0, b';');
    if middle == line.len() {
        show_message(line, room);
    } else {
        show_named(line, middle, room);
    }
}

fn show(line: &[u8], room: &mut [u8]) {
    let label = find(line, 0, b';');
    print(first(line, label));
    if label == line.len() {
        print(b"\n");
        return;
    }
    show_rest(rest(line, label + 1), room);
}

fn show_all(text: &[u8], room: &mut [u8]) {
    let mut at: usize = 0;
    while at < text.len() {
        let end = find(text, at, LINE_END);
        show(&text[at..end], room);
        at = end + 1;
    }
}

fn main() {
    let mut text = io::large_buffer();
    let n = io::read_full(STDIN, &mut text);
    let mut room = io::buffer();
    show_all(first(&text, n), &mut room);
}
