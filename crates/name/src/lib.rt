// Domain names in wire form (RFC 1035, section 3.1). A proper name is one or more labels of letters, digits, hyphens and
// underscores, at most 255 bytes in wire form.
#![tactic(auto)]

pub mod byte;
pub mod wire;

ghost use Rattle.std.specs.Prelude.{◌≡◌, take};

// A name in canonical wire form, by value: 256 bytes.
#[derive(Drop)]
pub struct WireName {
    // the name, and zeros after it
    pub bytes: [u8; 255],
    pub len: u8,
}

impl WireName {
    pub fn as_slice(&self) -> &[u8]
        ensures { result.now ≡ take self.now.len self.now.bytes }
    {
        &self.bytes[..self.len as usize]
    }
}
