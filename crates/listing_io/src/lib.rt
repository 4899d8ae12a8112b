// What the two programs that check a listing share: reading it from standard input, and printing a refusal. Where input or output fails they say so, so that a
// read that failed does not pass for the end of the listing.
#![tactic(auto)]

ghost use Rattle.listing_io.specs.Coming as spec;

use std::io::{Read, Stdin};

// Standard output and the error stream, as `io` takes them.
const STDOUT: i32 = 1;

const STDERR: i32 = 2;

// One byte more than the longest listing that the programs take: so much of a longer one is read, and no more. It is the programs' own number and
// stays where it is if the library comes to take longer listings.
pub const INPUT_LIMIT: usize = 65537;

#[derive(Drop)]
pub enum Input {
    Read(usize),
    Failed,
}

// Reads once from standard input into `room`: how many bytes came, none at the end of the input.
fn read_some(input: &mut Stdin, room: &mut [u8]) -> Input
    ensures { spec.Came room.new result }
{
    match input.read(room) {
        Ok(n) => Input::Read(n),
        Err(_) => Input::Failed,
    }
}

// Reads standard input to its end, or until `text` is full: how many bytes came.
pub fn read_input(input: &mut Stdin, text: &mut [u8]) -> Input
    ensures { spec.Came text.new result }
{
    let mut len: usize = 0;
    while len < text.len() {
        match read_some(input, &mut text[len..]) {
            Input::Failed => return Input::Failed,
            Input::Read(n) => {
                if n == 0 {
                    return Input::Read(len);
                }
                len += n;
            }
        }
    }
    Input::Read(len)
}

// Prints bytes on standard output. False where the output failed.
pub fn print(bytes: &[u8]) -> bool {
    io::write_all(STDOUT, bytes)
}

pub fn print_number(n: u64) -> bool {
    io::print_decimal(STDOUT, n)
}

// Prints a line on the error stream.
pub fn complain(line: &[u8]) {
    io::write_all(STDERR, line);
}

// Prints `refused NUMBER at OFFSET`.
pub fn print_refusal(number: u32, offset: u32) -> bool {
    print(b"refused ")
        && print_number(number as u64)
        && print(b" at ")
        && print_number(offset as u64)
        && print(b"\n")
}
