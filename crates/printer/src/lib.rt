// Printing a list of tokens, the paper's plain writing, by the rules that a lent table holds: their bytes one behind the other, if lexing
// them again gives the list back. `by_rules` prints, `rehearsal` reads a list back in a scratch before it is printed, so that the output
// stands as it was where the list is refused. Printing by a book's bytes is in crate `book_printer`.
#![tactic(auto)]

pub mod by_rules;
pub mod rehearsal;
