// A turn, token by token. The rules walk over no more bytes than the budget still allows; where not all of them have come to their error
// states there, and the text goes on, the turn is spent.
ghost use Rattle.std.specs.Prelude.{◌≡◌, List, [], ◌<◌, MatchOption, length, drop};
ghost use Rattle.automaton.specs.Rule.{Rule};
ghost use Rattle.automaton.specs.Layers.{Holds, Held};
ghost use Rattle.turns.specs.Reach.{all_fail, reach};
ghost use Rattle.turns.specs.Layers.{Stirs, Next, Keeps, KeepRoom, RunRoom, Turned, Stores};

use answer::Turn;
use longest_match::Choice;

// Takes a turn from `place` on. A record and a mask of each token are stored where it is `writing`; else it is only told what it comes to:
// `Stores` says both of one loop, and a closure that stores would hold two lent slices.
pub fn run(
    writing: bool,
    table: &[u64],
    text: &[u8],
    place: usize,
    budget: usize,
    records: &mut [u8],
    masks: &mut [u8],
) -> Turn
    requires { RunRoom writing table.now text.now place budget records.old masks.old }
    ensures turned { (rs : List Rule) → Holds table.now rs
        → Turned rs text.now place budget result.tokens result.next result.examined result.finished }
    ensures stores { (rs : List Rule) → Holds table.now rs
        → Stores writing rs text.now place budget records.old records.new masks.old
        masks.new }
{
    let mut lengths = [0usize; automaton::RULES];
    let mut tokens = 0;
    let mut at = place;
    let mut left = budget;
    if is_idle(table) {
        return Turn {
            tokens,
            next: place,
            examined: 0,
            finished: true,
        };
    }
    while at < text.len() {
        let Some(n) = next_token(table, text, at, left, &mut lengths) else {
            return Turn {
                tokens,
                next: at,
                examined: budget - left,
                finished: false,
            };
        };
        left -= n.paid;
        let Some(c) = n.chosen else {
            break;
        };
        let tag = automaton::tag_of(table, c.rule);
        keep(writing, records, masks, tokens, tag, at, c.len, c.mask);
        tokens += 1;
        at += c.len;
    }
    Turn {
        tokens,
        next: at,
        examined: budget - left,
        finished: true,
    }
}

// Whether all rules start in their error states: then nothing is examined anywhere.
fn is_idle(table: &[u64]) -> bool
    requires { Held table.now }
    ensures { (rs : List Rule) → Holds table.now rs → result ≡ all_fail rs [] }
{
    for k in 0..automaton::count_of(table) {
        if !automaton::starts_in_error(table, k) {
            return false;
        }
    }
    true
}

// What is next at a place: what is chosen, and the reach, which is paid.
#[derive(Clone, Copy)]
struct NextToken {
    chosen: Option<Choice>,
    paid: usize,
}

// What is next at `at`, where its reach fits what is left.
fn next_token(
    table: &[u64],
    text: &[u8],
    at: usize,
    left: usize,
    lengths: &mut [usize; automaton::RULES],
) -> Option<NextToken>
    requires held { Held table.now }
    requires stirs { Stirs table.now }
    requires at_in_bounds { at < length text.now }
    ensures { (rs : List Rule) → Holds table.now rs
        → MatchOption result (left < reach rs (drop at text.now)) (λ n. Next rs (drop at text.now) left n) }
{
    let ahead = text.len() - at;
    let window = ahead.min(left);
    if window == 0 {
        return None;
    }
    let went = longest_match::walk_with(table, text, at, at + window, lengths);
    if window < went && window < ahead {
        return None;
    }
    let chosen = longest_match::choose_walked(table, lengths);
    Some(NextToken {
        chosen,
        paid: went.min(window),
    })
}

// Stores record and mask number `k`, where it is `writing`. A flag, as a turn is counted by the loop that writes it: an option of both
// buffers asks the same at each token, and is no plainer.
fn keep(
    writing: bool,
    records: &mut [u8],
    masks: &mut [u8],
    k: usize,
    tag: u64,
    place: usize,
    len: usize,
    mask: u32,
)
    requires { KeepRoom writing k records.old masks.old }
    ensures { Keeps writing k tag place len mask records.old records.new masks.old
        masks.new }
{
    if writing {
        record::put_record(records, k, tag, place, len);
        record::put_mask(masks, k, mask);
    }
}
