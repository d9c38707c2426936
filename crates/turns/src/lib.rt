// Cutting in turns (document 02, wish 1) by the rules that a lent table holds. A turn begins at a place of the text and examines no more
// bytes than its budget; the caller goes on at the place that it reports. `by_rules` answers, or refuses by 14, 27 and 15; `running` cuts
// and pays token by token. A turn by a book's bytes is in crate `book_turns`.
#![tactic(auto)]

pub mod by_rules;
mod running;
