// Putting the tokens and their separators together, from the last token back, at the high end of a scratch. A token is walked once:
// stored in front of what is written, it shows there whether some rule matches more than the token.
ghost use Rattle.std.specs.Prelude.{◌≡◌, List, ◌∷◌, ◌≤◌, length, drop};
ghost use Rattle.automaton.specs.Rule.{Rule};
ghost use Rattle.automaton.specs.Layers.{Holds, Held};
ghost use Rattle.longest_match.specs.Lexer.{Token, Alone, join};
ghost use Rattle.record.specs.Tokens.{token_in, InPool};
ghost use Rattle.output.specs.Layers.{Stands};
ghost use Rattle.spacing.specs.Separators.{follows, put, spelled};
ghost use Rattle.spacing.specs.Layers.{is_last, Spaceable};

use record::TokenRecord;

// The token, with the separator behind it where one is due.
fn put_token(
    table: &[u64],
    mode: u32,
    pool: &[u8],
    token: TokenRecord,
    separator: TokenRecord,
    last: bool,
    scratch: &mut [u8],
    at: usize,
) -> Option<usize>
    requires held { Held table.now }
    requires in_pool { InPool pool.now token }
    requires in_pool_2 { InPool pool.now separator }
    requires at_in_bounds { at ≤ length scratch.old }
    ensures { (rs : List Rule) → Holds table.now rs
        → Alone rs (token_in pool.now token) → (us : List Token) → drop at scratch.old ≡ join us → last ≡ is_last us
        → Stands result
        (join (token_in pool.now token
        ∷ put (follows rs mode (token_in pool.now token) us) (token_in pool.now separator) us))
        scratch.new }
{
    let start = output::put_token(pool, token, scratch, at)?;
    if crate::is_due(table, mode, last, scratch, start, token.len as usize) {
        return output::put_both(pool, token, separator, scratch, at);
    }
    Some(start)
}

// All the tokens of the list, to the end of the scratch.
pub fn put_list(
    table: &[u64],
    separator: TokenRecord,
    mode: u32,
    records: &[u8],
    pool: &[u8],
    scratch: &mut [u8],
) -> Option<usize>
    requires { Spaceable table.now separator records.now pool.now }
    ensures { (rs : List Rule) → Holds table.now rs
        → Stands result (spelled rs separator mode records.now pool.now) scratch.new }
{
    let count = records.len() / 10;
    let mut at = scratch.len();
    for k in (0..count).rev() {
        let last = k + 1 == count;
        let token = record::read_record(records, k);
        at = put_token(table, mode, pool, token, separator, last, scratch, at)?;
    }
    Some(at)
}
