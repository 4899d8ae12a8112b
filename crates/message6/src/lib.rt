// DHCPv6 requests (RFC 8415): a message holds options, and a relay's Relay Message option holds a message.
#![tactic(auto)]

ghost use Rattle.std.specs.Prelude.{◌≡◌, ◌+◌, ◌≤◌, ◌<◌, ◌^◌, length};
ghost use Rattle.message6.specs.Message6 as told;
ghost use Rattle.message6.specs.Reading6 as reading;
ghost use Rattle.message6.specs.Walking6 as walking;

use base::number::be16;
use base::refusal::{
    MESSAGE_LENGTH, NO_IDENTIFIER, NOT_A_REQUEST, OPTION_REPEATED, OPTIONS_MALFORMED,
    TOO_MANY_RELAYS,
};
use message::seen::Seen;
use message::{Part, Request, refused};

// The fewest and the most bytes of a message (refusal 1), and the most relays outside the client's (refusal 11).
const MESSAGE_LEAST: usize = 4;

const MESSAGE_MOST: usize = 2048;

const RELAY_LIMIT: u32 = 8;

// RFC 8415, 7.3: message types.
const REQUEST: u8 = 3;

const RENEW: u8 = 5;

const REBIND: u8 = 6;

const RELAY_FORWARD: u8 = 12;

// Type and transaction id; type, hop count and two addresses.
const HEADER: usize = 4;

const RELAY_HEADER: usize = 34;

// RFC 4701's identifier type of a DUID.
const DUID: u16 = 2;

const RELAY_MESSAGE: u16 = 9;

const CLIENT_IDENTIFIER: u16 = 1;

const CLIENT_NAME: u16 = 39;

// What was seen of one level's options.
#[derive(Drop)]
struct LevelSeen {
    // they fill the level; where they do not, nothing counts as seen
    filled: bool,
    // option 9, the message that a relay passes on
    relayed: Seen,
    // option 1, the client's identifier
    duid: Seen,
    // option 39, the client's name
    name: Seen,
}

impl LevelSeen {
    // No option yet.
    fn none(filled: bool) -> LevelSeen
        ensures { result ≡ walking.nothing_seen filled }
    {
        LevelSeen {
            filled: filled,
            relayed: Seen::none(),
            duid: Seen::none(),
            name: Seen::none(),
        }
    }
}

// Passes the options of a level, which stand from `start` up to `end`.
fn pass_options(message: &[u8], start: usize, end: usize) -> LevelSeen
    requires { (start ≤ end) × (end ≤ length message.now) }
    ensures { result ≡ walking.level_seen (reading.options6 start (walking.part message.now start end)) }
{
    let mut at = start;
    let mut relayed = Seen::none();
    let mut duid = Seen::none();
    let mut name = Seen::none();
    while at < end {
        if end - at < 4 {
            return LevelSeen::none(false);
        }
        let code = be16(message[at], message[at + 1]);
        let len = be16(message[at + 2], message[at + 3]) as usize;
        let from = at + 4;
        if end - from < len {
            return LevelSeen::none(false);
        }
        let part = Part {
            start: from,
            len: len,
        };
        at = from + len;
        // an option of no interest leaves all three where they are: this loop is most of the time of a request in relays
        match code {
            RELAY_MESSAGE => relayed = relayed.met(part),
            CLIENT_IDENTIFIER => duid = duid.met(part),
            CLIENT_NAME => name = name.met(part),
            _ => {}
        }
    }
    LevelSeen {
        filled: true,
        relayed: relayed,
        duid: duid,
        name: name,
    }
}

fn accepted(id: Part, named: bool, name: Part) -> Request
    ensures { result ≡ walking.accepted_with id named name }
{
    Request {
        refusal: 0,
        id_type: DUID,
        has_name: named,
        name: name,
        id_head: Part { start: 0, len: 0 },
        id: id,
    }
}

// Option 1 is there, and is a DUID of 3 to 130 bytes.
fn is_duid(duid: Seen) -> bool
    ensures { result ≡ walking.is_duid duid }
{
    if !duid.found {
        return false;
    }
    let part = duid.part;
    3 <= part.len && part.len <= 130
}

// Option 39 is there, and is not empty.
fn is_name(name: Seen) -> bool
    ensures { result ≡ walking.is_name name }
{
    let part = name.part;
    name.found && 1 <= part.len
}

// What the options of the client's message say.
fn judge(level: LevelSeen) -> Request
    requires { level.name.part.start + level.name.part.len < 2 ^ 64 }
    ensures { result ≡ walking.judged level }
{
    let duid = level.duid;
    let name = level.name;
    if duid.again {
        return refused(OPTION_REPEATED);
    }
    if name.again {
        return refused(OPTION_REPEATED);
    }
    if !is_duid(duid) {
        return refused(NO_IDENTIFIER);
    }
    let id = duid.part;
    if !is_name(name) {
        return accepted(id, false, Part { start: 0, len: 0 });
    }
    // a byte of flags stands before the name
    let option = name.part;
    let part = Part {
        start: option.start + 1,
        len: option.len - 1,
    };
    accepted(id, true, part)
}

fn is_request_type(kind: u8) -> bool
    ensures { result ≡ told.is_request_type kind }
{
    match kind {
        REQUEST | RENEW | REBIND => true,
        _ => false,
    }
}

// One level, which stands from `start` up to `end`; so many relays are still allowed, this one among them.
#[cycle(read_level_walk_options)]
fn read_level(message: &[u8], start: usize, end: usize, relays: u32) -> Request
    requires { (start ≤ end) × (end ≤ length message.now) }
    ensures { result ≡ reading.level relays start (walking.part message.now start end) }
{
    if start == end {
        return refused(OPTIONS_MALFORMED);
    }
    let kind = message[start];
    if is_request_type(kind) {
        if end - start < HEADER {
            return refused(OPTIONS_MALFORMED);
        }
        return walk_options(message, start + HEADER, end, false, relays);
    }
    if kind != RELAY_FORWARD {
        return refused(NOT_A_REQUEST);
    }
    if relays == 0 {
        return refused(TOO_MANY_RELAYS);
    }
    if end - start < RELAY_HEADER {
        return refused(OPTIONS_MALFORMED);
    }
    walk_options(message, start + RELAY_HEADER, end, true, relays - 1)
}

// The options of one level, which stand from `start` up to `end`, of a relay or of the client's message. The level is judged as a whole before
// what a relay passes on is read, as a level of its own, where so many relays are still allowed.
#[cycle(read_level_walk_options)]
fn walk_options(message: &[u8], start: usize, end: usize, relay: bool, relays: u32) -> Request
    requires { (start ≤ end) × (end ≤ length message.now) }
    ensures { result ≡ walking.walked relay relays (reading.options6 start (walking.part message.now start end)) }
{
    let level = pass_options(message, start, end);
    if !level.filled {
        return refused(OPTIONS_MALFORMED);
    }
    if !relay {
        return judge(level);
    }
    let relayed = level.relayed;
    if !relayed.found {
        return refused(OPTIONS_MALFORMED);
    }
    if relayed.again {
        return refused(OPTION_REPEATED);
    }
    let inner = relayed.part;
    read_level(message, inner.start, inner.start + inner.len, relays)
}

// Reads a DHCPv6 request: who sent it, and which name it asks for; or its refusal.
pub fn read6(message: &[u8]) -> Request
    ensures { result ≡ reading.request6 message.now }
{
    if message.len() < MESSAGE_LEAST {
        return refused(MESSAGE_LENGTH);
    }
    if MESSAGE_MOST < message.len() {
        return refused(MESSAGE_LENGTH);
    }
    read_level(message, 0, message.len(), RELAY_LIMIT)
}
