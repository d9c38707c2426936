// Reading one position of an expression: a byte, an escaped byte, a period or a list, with the bytes that it takes noted.
// The Err of each reading function is the place of the fault.
#![tactic(auto)]

ghost use Rattle.std.specs.Prelude.{◌≡◌, false, ◌&&◌, List, ℕ, ◌+◌, ◌<◌, ◌≤◌, eqb, leb, length, drop};
ghost use Rattle.expression.specs.Expression.{byte, period};
ghost use Rattle.expression.specs.Spelling.{is_special, is_ordinary, is_listed};
ghost use Rattle.expression.specs.Reading.{Parsed, item_at, low_end, high_end, list_of, items_in, escaped_at, atom_at};
ghost use Rattle.position_reader.specs.Layers.{Reads, Ready, starts_with};
ghost use Rattle.position_reader.specs.Steps.{only, Marked, ItemReads, Behind, ListReads, ListSteps};
ghost use Rattle.position_reader.specs.Steps.{Positioned, ReadPosition};

// What has been read of a text, with the positions from a number on: the place behind it, the number of the next position, how deep its
// parentheses are, whether it matches the empty string, and which positions can match the first and the last byte of a string.
#[derive(Clone, Copy)]
pub struct Part {
    pub at: usize,
    pub end: usize,
    pub depth: usize,
    pub empty: bool,
    pub first: u64,
    pub last: u64,
}

// An item of a list, and the place behind it.
#[derive(Clone, Copy)]
struct Item {
    low: u8,
    high: u8,
    next: usize,
}

// Behind an item: the place of the next, or the place behind the list's ].
#[derive(Clone, Copy)]
enum ListStep {
    More(usize),
    Closed(usize),
}

// Position `n` as a set; from 64 on it is not noted.
#[tactic(auto, using(crate::proofs::Sets::only_below, crate::proofs::Sets::only_above))]
pub fn bit(n: usize) -> u64
    ensures { result ≡ only n }
{
    if n < 64 { 1 << n } else { 0 }
}

#[tactic(auto, unfolding(expression::specs::Spelling::is_special))]
fn is_special(b: u8) -> bool
    ensures { result ≡ is_special b }
{
    matches!(
        b,
        b'^' | b'.' | b'[' | b'$' | b'(' | b')' | b'|' | b'*' | b'+' | b'?' | b'{' | b'\\'
    )
}

#[tactic(auto, unfolding(expression::specs::Spelling::is_ordinary))]
fn is_ordinary(b: u8) -> bool
    ensures { result ≡ is_ordinary b }
{
    b != 0 && !is_special(b)
}

#[tactic(auto, unfolding(expression::specs::Spelling::is_listed))]
fn is_listed(b: u8) -> bool
    ensures { result ≡ is_listed b }
{
    !matches!(b, 0 | b']' | b'[' | b'-' | b'\\' | b'^')
}

// Adds a set to the bytes from `low` to `high`.
fn mark(takers: &mut [u64; 256], low: u8, high: u8, added: u64)
    ensures { Marked (λ (b : ℕ). leb low b && leb b high) added takers.old takers.new }
{
    for b in low..=high {
        takers[b as usize] |= added;
    }
}

// An item of a list.
#[tactic(auto, using(crate::proofs::Places::item_none, crate::proofs::Places::item_wrong, crate::proofs::Places::item_right))]
fn read_item(text: &[u8], at: usize) -> Result<Item, usize>
    requires { at ≤ length text.now }
    ensures { ItemReads (item_at (drop at text.now)) text.now (at + 1) result }
{
    match text.get(at) {
        Some(&low) if is_listed(low) => read_low_end(text, low, at + 1),
        _ => Err(at),
    }
}

// Behind a byte of a list, which is the low end of a range where a - follows.
#[tactic(auto, using(crate::proofs::Places::low_none, crate::proofs::Places::low_alone, crate::proofs::Places::low_range))]
fn read_low_end(text: &[u8], low: u8, at: usize) -> Result<Item, usize>
    requires { at ≤ length text.now }
    ensures { ItemReads (low_end low (drop at text.now)) text.now at result }
{
    match text.get(at) {
        Some(b'-') => read_high_end(text, low, at + 1),
        _ => Ok(Item {
            low,
            high: low,
            next: at,
        }),
    }
}

// Behind the - of a range.
#[tactic(auto, using(crate::proofs::Places::high_none, crate::proofs::Places::high_wrong, crate::proofs::Places::high_right))]
fn read_high_end(text: &[u8], low: u8, at: usize) -> Result<Item, usize>
    requires { at ≤ length text.now }
    ensures { ItemReads (high_end low (drop at text.now)) text.now at result }
{
    match text.get(at) {
        Some(&high) if is_listed(high) && low <= high => Ok(Item {
            low,
            high,
            next: at + 1,
        }),
        _ => Err(at),
    }
}

// An item of a list, whose bytes get the set; and what stands behind it.
fn list_step(text: &[u8], at: usize, added: u64, takers: &mut [u64; 256]) -> Result<ListStep, usize>
    requires { at ≤ length text.now }
    ensures { ListSteps text.now at added takers.old takers.new result }
{
    let item = read_item(text, at)?;
    mark(takers, item.low, item.high, added);
    after_item(text, item.next)
}

// Behind an item: the list's end, or another item.
fn after_item(text: &[u8], at: usize) -> Result<ListStep, usize>
    requires { at ≤ length text.now }
    ensures { Behind text.now at result }
{
    match text.get(at) {
        None => Err(at),
        Some(b']') => Ok(ListStep::Closed(at + 1)),
        Some(_) => Ok(ListStep::More(at)),
    }
}

// A list, behind its [, up to behind its ]; the bytes of its items get the set.
#[tactic(auto, using(crate::proofs::Lists::listing_closed, crate::proofs::Lists::listing_fault))]
fn read_list(text: &[u8], start: usize, added: u64, takers: &mut [u64; 256]) -> Result<usize, usize>
    requires { start ≤ length text.now }
    ensures { ListReads text.now start added takers.old takers.new result }
{
    let mut at = start;
    loop {
        match list_step(text, at, added, takers)? {
            ListStep::More(next) => at = next,
            ListStep::Closed(next) => return Ok(next),
        }
    }
}

// The part that is position `base`, up to `at`; as yet no position follows it.
#[tactic(auto, using(crate::proofs::Parts::positioned_below, crate::proofs::Parts::positioned_above))]
fn position_part(at: usize, base: usize, follow: &mut [u64; 64]) -> Part
    requires { base < at }
    ensures { Positioned at base result follow.old follow.new }
{
    if base < 64 {
        follow[base] = 0;
    }
    let set = bit(base);
    Part {
        at,
        end: base + 1,
        depth: 0,
        empty: false,
        first: set,
        last: set,
    }
}

// A byte that stands for itself, up to `at`.
fn read_byte(b: u8, at: usize, base: usize, takers: &mut [u64; 256], follow: &mut [u64; 64]) -> Part
    requires { base < at }
    ensures { ReadPosition (byte b) at base result takers.old takers.new follow.old follow.new }
{
    mark(takers, b, b, bit(base));
    position_part(at, base, follow)
}

// A period, up to `at`.
fn read_period(at: usize, base: usize, takers: &mut [u64; 256], follow: &mut [u64; 64]) -> Part
    requires { base < at }
    ensures { ReadPosition period at base result takers.old takers.new follow.old follow.new }
{
    let set = bit(base);
    mark(takers, 1, 9, set);
    mark(takers, 11, 255, set);
    position_part(at, base, follow)
}

// Behind a backslash.
fn read_escape(
    text: &[u8],
    at: usize,
    base: usize,
    takers: &mut [u64; 256],
    follow: &mut [u64; 64],
) -> Result<Part, usize>
    requires { (at ≤ length text.now) × (base < at) }
    ensures { Reads text.now base (escaped_at (drop at text.now)) result
        takers.old takers.new follow.old follow.new }
{
    match text.get(at) {
        Some(&b) if is_special(b) => Ok(read_byte(b, at + 1, base, takers, follow)),
        _ => Err(at),
    }
}

// Behind a [.
fn read_bracket(
    text: &[u8],
    at: usize,
    base: usize,
    takers: &mut [u64; 256],
    follow: &mut [u64; 64],
) -> Result<Part, usize>
    requires { (at ≤ length text.now) × (base < at) }
    ensures { Reads text.now base (list_of (items_in (drop at text.now))) result
        takers.old takers.new follow.old follow.new }
{
    let next = read_list(text, at, bit(base), takers)?;
    Ok(position_part(next, base, follow))
}

// An atom that is no group, or the place of the fault. What the tables hold after a fault plays no part.
pub fn read_position(
    text: &[u8],
    at: usize,
    base: usize,
    takers: &mut [u64; 256],
    follow: &mut [u64; 64],
) -> Result<Part, usize>
    requires { Ready text.now at base }
    ensures { (next : List ℕ → Parsed) → starts_with 40 (drop at text.now) ≡ false
        → Reads text.now base (atom_at next (drop at text.now)) result
        takers.old takers.new follow.old follow.new }
{
    match text.get(at) {
        None => Err(at),
        Some(b'[') => read_bracket(text, at + 1, base, takers, follow),
        Some(b'.') => Ok(read_period(at + 1, base, takers, follow)),
        Some(b'\\') => read_escape(text, at + 1, base, takers, follow),
        Some(&b) if is_ordinary(b) => Ok(read_byte(b, at + 1, base, takers, follow)),
        Some(_) => Err(at),
    }
}
