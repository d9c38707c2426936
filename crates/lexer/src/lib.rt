// Cutting a text by the rules that a lent table holds: `by_rules` answers, or refuses by 14 and 15; `filling` stores the records and the
// masks. Cutting by a book's bytes is crate `book_lexer`.
#![tactic(auto)]

pub mod by_rules;
pub mod filling;
