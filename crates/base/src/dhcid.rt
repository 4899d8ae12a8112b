// What the data of a DHCID record must be before anything else is asked of it (RFC 4701, section 3).
ghost use Rattle.std.specs.Prelude.{◌≡◌};
ghost use Rattle.base.specs.Dhcid as spec;

use crate::number::be16;

// Its length in bytes: identifier type (2), digest type (1), SHA-256 digest (32).
pub const LENGTH: usize = 35;

// Refusal 15's test: the length, an identifier type that is defined, and the digest type of SHA-256.
pub fn is_well_formed(rdata: &[u8]) -> bool
    ensures { result ≡ spec.well_formed rdata.now }
{
    if rdata.len() != LENGTH {
        return false;
    }
    if 2 < be16(rdata[0], rdata[1]) {
        return false;
    }
    rdata[2] == 1
}
