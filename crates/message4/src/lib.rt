// DHCPv4 requests: the header (RFC 2131, 2), the options up to End (RFC 2132), and what they come to. Each option's code and length are looked at once.
#![tactic(auto)]

ghost use Rattle.std.specs.Prelude.{◌≡◌, [], ◌≤◌, length, get_or};
ghost use Rattle.std.proofs.Math.Option.{none};
ghost use Rattle.message.specs.Request.{bytes_of, Inside, no_part};
ghost use Rattle.message4.specs.Message4.{is_request, has_duid, identifier4, has_wire_name, name4};
ghost use Rattle.message4.specs.Judging4 as spec;
ghost use Rattle.message4.specs.Reading4 as reading;

use base::refusal::{
    HARDWARE_ADDRESS_LENGTH, MESSAGE_LENGTH, NO_IDENTIFIER, NOT_A_REQUEST, NOT_BOOTREQUEST,
    OPTION_OVERLOAD, OPTION_REPEATED, OPTIONS_MALFORMED,
};
use message::seen::Seen;
use message::{Part, Request, refused};

// The header's fields, by their offsets: op, htype and hlen, chaddr, the magic cookie, and the options after it.
const OP: usize = 0;

const HTYPE: usize = 1;

const HLEN: usize = 2;

const CHADDR: usize = 28;

const COOKIE: usize = 236;

const OPTIONS: usize = 240;

const LONGEST_MESSAGE: usize = 2048;

const LONGEST_ADDRESS: u8 = 16;

const BOOTREQUEST: u8 = 1;

// Option codes.
const PAD: u8 = 0;

const OVERLOAD: u8 = 52;

const MESSAGE_TYPE: u8 = 53;

const CLIENT_ID: u8 = 61;

const CLIENT_FQDN: u8 = 81;

const END: u8 = 255;

const DHCPREQUEST: u8 = 3;

// The first byte of a client identifier with a DUID, which stands after it and four bytes of IAID (RFC 4361, 6.1).
const NODE_SPECIFIC: u8 = 255;

const DUID_START: usize = 5;

// How long such an option may be: the DUID has 3 to 130 bytes.
const SHORTEST_WITH_DUID: usize = 8;

const LONGEST_WITH_DUID: usize = 135;

// In option 81 (RFC 4702, 2) the name stands after a byte of flags and two more; flag E says that it is in wire form.
const NAME_START: usize = 3;

const FLAG_E: u8 = 4;

// Identifier types (RFC 4701, 3.3).
const HARDWARE_ADDRESS: u16 = 0;

const CLIENT_IDENTIFIER: u16 = 1;

const DUID: u16 = 2;

// What was seen of the options that a request is judged by.
#[derive(Drop)]
struct Wanted {
    overload: Seen,
    message_type: Seen,
    client_id: Seen,
    client_fqdn: Seen,
}

// The name that the client asks for; zeros where it asks for none.
#[derive(Drop)]
pub struct Name {
    pub given: bool,
    pub part: Part,
}

impl Wanted {
    fn none() -> Wanted
        ensures { result ≡ spec.wanted_of [] }
    {
        Wanted {
            overload: Seen::none(),
            message_type: Seen::none(),
            client_id: Seen::none(),
            client_fqdn: Seen::none(),
        }
    }

    // One more option.
    fn noted(self, code: u8, part: Part) -> Wanted
        ensures { result ≡ spec.noted self code part }
    {
        let mut overload = self.overload;
        let mut message_type = self.message_type;
        let mut client_id = self.client_id;
        let mut client_fqdn = self.client_fqdn;
        match code {
            OVERLOAD => overload = overload.met(part),
            MESSAGE_TYPE => message_type = message_type.met(part),
            CLIENT_ID => client_id = client_id.met(part),
            CLIENT_FQDN => client_fqdn = client_fqdn.met(part),
            _ => {}
        }
        Wanted {
            overload: overload,
            message_type: message_type,
            client_id: client_id,
            client_fqdn: client_fqdn,
        }
    }
}

fn no_part() -> Part
    ensures { result ≡ no_part }
{
    Part { start: 0, len: 0 }
}

fn no_name() -> Name
    ensures { result ≡ spec.as_name none }
{
    Name {
        given: false,
        part: Part { start: 0, len: 0 },
    }
}

fn accepted(id_type: u16, id_head: Part, id: Part, name: Name) -> Request
    ensures { result ≡ spec.accepted_as (record { type = id_type; head = id_head; rest = id }) name }
{
    let part = name.part;
    Request {
        refusal: 0,
        id_type: id_type,
        has_name: name.given,
        name: part,
        id_head: id_head,
        id: id,
    }
}

// The first byte of an option's data, which are not empty.
fn first_byte(message: &[u8], part: Part) -> u8
    requires { (Inside message.now part) × (1 ≤ part.len) }
    ensures { result ≡ get_or (bytes_of message.now part) 0 0 }
{
    let start = part.start;
    message[start]
}

// Is option 53 the single byte 3?
fn is_request(message: &[u8], message_type: Seen) -> bool
    requires { spec.SeenInside message.now message_type }
    ensures { result ≡ is_request (spec.data_of message.now 53 message_type) }
{
    if !message_type.found {
        return false;
    }
    let part = message_type.part;
    if part.len != 1 {
        return false;
    }
    first_byte(message, part) == DHCPREQUEST
}

// Has option 61, whose data are this part, a DUID?
fn has_duid(message: &[u8], part: Part) -> bool
    requires { Inside message.now part }
    ensures { result ≡ has_duid (spec.data_at message.now 61 part) }
{
    if part.len < SHORTEST_WITH_DUID {
        return false;
    }
    if LONGEST_WITH_DUID < part.len {
        return false;
    }
    first_byte(message, part) == NODE_SPECIFIC
}

// Has option 81, whose data are this part, a name in wire form?
fn has_wire_name(message: &[u8], part: Part) -> bool
    requires { Inside message.now part }
    ensures { result ≡ has_wire_name (spec.data_at message.now 81 part) }
{
    if part.len < NAME_START {
        return false;
    }
    first_byte(message, part) / FLAG_E % 2 == 1
}

// The name that option 81 asks for.
fn name_in(message: &[u8], client_fqdn: Seen) -> Name
    requires { spec.SeenInside message.now client_fqdn }
    ensures { result ≡ spec.as_name (name4 (spec.data_of message.now 81 client_fqdn)) }
{
    if !client_fqdn.found {
        return no_name();
    }
    let part = client_fqdn.part;
    if !has_wire_name(message, part) {
        return no_name();
    }
    Name {
        given: true,
        part: Part {
            start: part.start + NAME_START,
            len: part.len - NAME_START,
        },
    }
}

// The request of the client that option 61, or else the hardware address, identifies.
fn identify(message: &[u8], client_id: Seen, name: Name) -> Request
    requires { (240 ≤ length message.now) × spec.SeenInside message.now client_id }
    ensures { result ≡ spec.identified_as (identifier4 message.now (spec.data_of message.now 61 client_id)) name }
{
    if !client_id.found {
        let hlen = message[HLEN] as usize;
        if hlen == 0 {
            return refused(NO_IDENTIFIER);
        }
        return accepted(
            HARDWARE_ADDRESS,
            Part {
                start: HTYPE,
                len: 1,
            },
            Part {
                start: CHADDR,
                len: hlen,
            },
            name,
        );
    }
    let part = client_id.part;
    if has_duid(message, part) {
        return accepted(
            DUID,
            no_part(),
            Part {
                start: part.start + DUID_START,
                len: part.len - DUID_START,
            },
            name,
        );
    }
    if part.len < 2 {
        return refused(NO_IDENTIFIER);
    }
    accepted(CLIENT_IDENTIFIER, no_part(), part, name)
}

// What the options come to.
fn judge(message: &[u8], wanted: Wanted) -> Request
    requires { (240 ≤ length message.now) × spec.WantedInside message.now wanted }
    ensures { result ≡ spec.judged_by message.now wanted }
{
    let overload = wanted.overload;
    let message_type = wanted.message_type;
    let client_id = wanted.client_id;
    let client_fqdn = wanted.client_fqdn;
    if overload.again | message_type.again | client_id.again | client_fqdn.again {
        return refused(OPTION_REPEATED);
    }
    if overload.found {
        return refused(OPTION_OVERLOAD);
    }
    if !is_request(message, message_type) {
        return refused(NOT_A_REQUEST);
    }
    let name = name_in(message, client_fqdn);
    identify(message, client_id, name)
}

// The options up to End, and what they come to.
fn read_options(message: &[u8]) -> Request
    requires { 240 ≤ length message.now }
    ensures { result ≡ reading.after_header4 message.now }
{
    let mut wanted = Wanted::none();
    let mut i = OPTIONS;
    while i < message.len() {
        let code = message[i];
        if code == END {
            return judge(message, wanted);
        }
        if code == PAD {
            i += 1;
        } else {
            if message.len() - i < 2 {
                return refused(OPTIONS_MALFORMED);
            }
            let len = message[i + 1] as usize;
            if message.len() - i - 2 < len {
                return refused(OPTIONS_MALFORMED);
            }
            wanted = wanted.noted(
                code,
                Part {
                    start: i + 2,
                    len: len,
                },
            );
            i = i + 2 + len;
        }
    }
    refused(OPTIONS_MALFORMED)
}

// Is op 1, and does the magic cookie stand before the options?
fn is_bootrequest(message: &[u8]) -> bool
    requires { 240 ≤ length message.now }
    ensures { result ≡ reading.is_bootrequest message.now }
{
    (message[OP] == BOOTREQUEST)
        & (message[COOKIE] == 99)
        & (message[COOKIE + 1] == 130)
        & (message[COOKIE + 2] == 83)
        & (message[COOKIE + 3] == 99)
}

// What a DHCPv4 message says: the client's identifier and the name that it asks for, or the refusal.
pub fn read4(message: &[u8]) -> Request
    ensures { result ≡ reading.request4 message.now }
{
    if message.len() < OPTIONS {
        return refused(MESSAGE_LENGTH);
    }
    if LONGEST_MESSAGE < message.len() {
        return refused(MESSAGE_LENGTH);
    }
    if !is_bootrequest(message) {
        return refused(NOT_BOOTREQUEST);
    }
    if LONGEST_ADDRESS < message[HLEN] {
        return refused(HARDWARE_ADDRESS_LENGTH);
    }
    read_options(message)
}
