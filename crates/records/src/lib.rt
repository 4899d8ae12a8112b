// A table of names as records, and records as a table: definitions and theorems alone, specs/ and proofs/.
#![tactic(auto)]
