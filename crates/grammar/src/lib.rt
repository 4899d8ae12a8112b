// What a listing spells is definitions and theorems alone: specs/ and proofs/.
#![tactic(auto)]

// The most bytes of a listing (refusal 17).
pub const LISTING_LIMIT: usize = 65536;
