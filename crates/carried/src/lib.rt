// What the messages of an add and of a remove come to on a zone, by RFC 2136's rules: definitions and theorems. The functions are those of `update` and `table`.
#![tactic(auto)]
