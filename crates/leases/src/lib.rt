// Leases over both sides, the table and the reverse side: what a lease and its end do, step by step, and what is left where the power fails between two steps, by
// definitions and theorems. The functions are those of `lease_calls`.
#![tactic(auto)]
