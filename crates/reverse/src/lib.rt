// The reverse side as bytes: for each address one name behind it, by definitions and their laws. The functions over it are those of `reverse_row`.
#![tactic(auto)]
