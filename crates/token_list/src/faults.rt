// The fault of one token: what a printer refuses it for, whatever else is in the list.
ghost use Rattle.std.specs.Prelude.{◌≡◌, List};
ghost use Rattle.automaton.specs.Rule.{Rule};
ghost use Rattle.automaton.specs.Layers.{Holds, Held};
ghost use Rattle.token_list.specs.Faults.{fault_of};
ghost use Rattle.token_list.specs.Layers.{fault_for};

use answer::Reason;
use record::TokenRecord;

// The reason that refuses a token, if one does.
pub fn token_fault(table: &[u64], pool: &[u8], token: TokenRecord) -> Option<Reason>
    requires { Held table.now }
    ensures { (rs : List Rule) → Holds table.now rs → result ≡ fault_for (fault_of rs pool.now token) }
{
    let place = token.place as usize;
    let len = token.len as usize;
    if pool.len() < place + len {
        return Some(Reason::PastThePool);
    }
    let Some(rule) = automaton::find_tag(table, token.tag as u64) else {
        return Some(Reason::UnknownTag);
    };
    let Some(chosen) = longest_match::choose(table, pool, place, place + len) else {
        return Some(Reason::NotAlone);
    };
    if chosen.len != len || chosen.rule != rule {
        return Some(Reason::NotAlone);
    }
    None
}
