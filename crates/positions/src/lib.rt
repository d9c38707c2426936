// The positions of an expression: which can match a string's first byte, which its last, and which the byte after another; definitions and
// laws, no code.

#![tactic(auto)]
