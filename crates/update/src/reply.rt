// What the server answers to a message.
ghost use Rattle.base.specs.Logic.{Decides};
ghost use Rattle.update.specs.Reply as spec;

use base::Answer;
use base::number::be16;
use base::refusal::{ANOTHER_CODE, NOT_THE_ANSWER};

// The header of a DNS message, in bytes.
const HEADER: usize = 12;

// The codes that our messages are answered by.
const DONE: u8 = 0;

const NAME_IN_USE: u8 = 6;

const SET_STANDS: u8 = 7;

const NO_SUCH_SET: u8 = 8;

fn is_ours(code: u8) -> bool
    ensures { Decides result (spec.IsOurs code) }
{
    if code == DONE {
        return true;
    }
    if code == NAME_IN_USE {
        return true;
    }
    if code == SET_STANDS {
        return true;
    }
    code == NO_SUCH_SET
}

// Reads the code of an answer to the message with that number. Refusals: 47, 48.
pub fn read(id: u16, reply: &[u8]) -> Answer
    ensures { spec.ReadsReply id reply.now result }
{
    if reply.len() < HEADER {
        return Answer::refused(NOT_THE_ANSWER);
    }
    // QR 1
    if reply[2] / 128 != 1 {
        return Answer::refused(NOT_THE_ANSWER);
    }
    // opcode 5
    if reply[2] / 8 % 16 != 5 {
        return Answer::refused(NOT_THE_ANSWER);
    }
    if be16(reply[0], reply[1]) != id {
        return Answer::refused(NOT_THE_ANSWER);
    }
    let code = reply[3] % 16;
    if !is_ours(code) {
        return Answer::refused(ANOTHER_CODE);
    }
    Answer::Accepted(code as u32)
}
