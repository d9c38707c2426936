// An extended regular expression, of the part of POSIX.1 that document 02, wish 9, takes: its texts, the strings that it matches, and the
// reading of a text to its first fault; definitions and laws, no code.

#![tactic(auto)]
