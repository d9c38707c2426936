// The states of a rule that is made of an expression: the sets of its positions that can have matched the last byte, numbered from 1 as
// they are reached, and where each of them leads at each byte.
#![tactic(auto)]

ghost use Rattle.std.specs.Prelude.{◌≡◌, ◌==◌, ◌+◌, ◌≤◌, ◌<◌, length, take, position, MatchOption};
ghost use Rattle.subsets.specs.States.{after, sets_ahead, ahead_of, place, number_of, finals_of};
ghost use Rattle.subsets.specs.Layers.{Numbered, Learns, Fills, Explores, Puts};

// The greatest number of a state.
const MAX_STATES: usize = 254;

// The positions that can match the byte after that of a position of the set.
fn after(follow: &[u64; 64], set: u64) -> u64
    ensures { result ≡ after follow.now set }
{
    let mut all = 0;
    for p in 0..64 {
        // A value, not a branch: which positions a set has is not foretold.
        all |= if (set >> p) % 2 == 1 { follow[p] } else { 0 };
    }
    all
}

// The index of the set among the known ones. Apart, so that the search counts nothing but places.
#[inline(never)]
fn find(known: &[u64], set: u64) -> Option<usize>
    ensures { result ≡ position (λ x. x == set) known.now }
{
    known.iter().position(|x| *x == set)
}

// The number of the set among the known ones, 0 where it is empty. Most bytes lead where the byte before led: cold, so that those pass
// without a jump over what is done for the others.
#[cold]
#[inline(never)]
fn number_of(known: &[u64], set: u64) -> Option<usize>
    ensures { MatchOption result (length known.now < number_of known.now set)
        (λ n. (n ≡ number_of known.now set) × (n ≤ length known.now)) }
{
    if set == 0 {
        return Some(0);
    }
    let k = find(known, set)?;
    Some(k + 1)
}

// How many sets are known, and the set that was met last, with its number.
#[derive(Clone, Copy)]
struct Latest {
    count: usize,
    set: u64,
    number: usize,
}

// Numbers the set, which becomes known if it was not. One that was met last is not looked up.
fn learn(sets: &mut [u64; 256], last: Latest, set: u64) -> Latest
    requires { Numbered sets.old last × (last.count ≤ 254) }
    ensures { Learns sets.old last set result sets.new }
{
    if set == last.set {
        return last;
    }
    let count = last.count;
    if let Some(number) = number_of(&sets[..count], set) {
        return Latest { count, set, number };
    }
    sets[count] = set;
    Latest {
        count: count + 1,
        set,
        number: count + 1,
    }
}

// Numbers the sets to which the bytes lead, and stores the numbers. Answers how many sets are then known, unless there are too many.
fn fill_row(
    ahead: u64,
    takers: &[u64; 256],
    sets: &mut [u64; 256],
    count: usize,
    targets: &mut [u8],
) -> Option<usize>
    requires { (count ≤ 254) × (length targets.old ≡ 256) }
    ensures { Fills (sets_ahead takers.now ahead) sets.old count result sets.new targets.new }
{
    let mut last = Latest {
        count,
        set: 0,
        number: 0,
    };
    for b in 0..256 {
        last = learn(sets, last, ahead & takers[b]);
        targets[b] = last.number as u8;
        if last.count > MAX_STATES {
            return None;
        }
    }
    Some(last.count)
}

// What can match the next byte in state `k`.
fn ahead_of(first: u64, follow: &[u64; 64], sets: &[u64], k: usize) -> u64
    requires { k ≤ length sets.now }
    ensures { result ≡ ahead_of first follow.now sets.now k }
{
    if k == 0 {
        return first;
    }
    after(follow, sets[k - 1])
}

// Finds the sets that are reached, in the order of their numbers, and of each state, the start first, its 256 targets. Answers how many
// sets there are, unless there are more than a rule has numbers for: what the two arrays hold then means nothing. What stands in them
// before plays no part.
pub fn explore(
    first: u64,
    follow: &[u64; 64],
    takers: &[u64; 256],
    sets: &mut [u64; 256],
    targets: &mut [u8; 65536],
) -> Option<usize>
    ensures { Explores first follow.now takers.now result sets.new targets.new }
{
    let mut count = 0;
    let mut k = 0;
    // `count` grows on the way, so this is no range.
    while k <= count {
        let ahead = ahead_of(first, follow, sets, k);
        count = fill_row(
            ahead,
            takers,
            sets,
            count,
            &mut targets[256 * k..256 * k + 256],
        )?;
        k += 1;
    }
    Some(count)
}

// Puts the number behind the first `n` finals where the test holds, and answers how many there are then.
fn put_if(test: bool, finals: &mut [u8], n: usize, number: u8) -> usize
    requires { n < length finals.old }
    ensures { Puts test number n finals.old result finals.new }
{
    if test {
        finals[n] = number;
        return n + 1;
    }
    n
}

// The numbers of the final states, rising: 0 where the empty text matches, and each whose set has a position in common with `last`.
pub fn list_finals(last: u64, empty: bool, sets: &[u64], finals: &mut [u8; 256]) -> usize
    requires { length sets.now ≤ 254 }
    ensures { (result ≤ length sets.now + 1) × (take result finals.new ≡ finals_of last empty sets.now) }
{
    let mut n = put_if(empty, finals, 0, 0);
    for (k, set) in sets.iter().enumerate() {
        n = put_if(*set & last != 0, finals, n, (k + 1) as u8);
    }
    n
}
