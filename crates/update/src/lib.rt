// UPDATE messages for a name server (RFC 2136): the four that carry an add and a remove, and what the server answers.
#![tactic(auto)]

pub mod call;
mod message;
mod record;
pub mod reply;
mod section;

// The messages that name an address: the two of an add, and the first of a remove.
#[derive(Clone, Copy)]
pub enum Kind {
    AddFirst,
    AddSecond,
    RemoveFirst,
}
