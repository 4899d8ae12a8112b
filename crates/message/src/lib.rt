// What a DHCP request of either family says: which client sent it, and which name it asks for. Both are parts of the message, uncopied.
#![tactic(auto)]

pub mod seen;

ghost use Rattle.std.specs.Prelude.{◌≡◌};
ghost use Rattle.message.specs.Request.{refused_request};

// A part of the message: where it starts, and how many bytes it has.
#[derive(Clone, Copy)]
pub struct Part {
    pub start: usize,
    pub len: usize,
}

// What a request says. On a refusal all else is zero.
#[derive(Clone, Copy)]
pub struct Request {
    // the refusal's number; 0 where the request is accepted
    pub refusal: u32,
    // RFC 4701's identifier type: 0 hardware address, 1 client identifier, 2 DUID
    pub id_type: u16,
    // the name that the client asks for, if it does
    pub has_name: bool,
    pub name: Part,
    // the identifier's bytes, in two parts; the first is empty but for a hardware address, whose type it is
    pub id_head: Part,
    pub id: Part,
}

// A refusal.
pub fn refused(number: u32) -> Request
    ensures { result ≡ refused_request number }
{
    Request {
        refusal: number,
        id_type: 0,
        has_name: false,
        name: Part { start: 0, len: 0 },
        id_head: Part { start: 0, len: 0 },
        id: Part { start: 0, len: 0 },
    }
}
