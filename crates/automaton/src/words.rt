// The words of a table: transitions, the spots to which they lead, and starts. Where a part stands in its word is known here alone.
// Parts are packed into a u64 for fixed memory: a word of the table is what a walk loads.
ghost use Rattle.std.specs.Prelude.{◌≡◌, ◌<◌};
ghost use Rattle.automaton.specs.Layers.{state_of, head_of, is_final};
ghost use Rattle.automaton.specs.Layers.{edge_word, low_of, high_of, next_of, spot_of, covers_word};

// The word of a transition.
pub fn edge(low: u8, high: u8, next: usize, spot: u64) -> u64
    requires { (next < 65536) × (spot < 4294967296) }
    ensures { result ≡ edge_word low high next spot }
{
    spot * 4294967296 + (next as u64) * 65536 + (high as u64) * 256 + (low as u64)
}

pub fn low(edge: u64) -> u64
    ensures { result ≡ low_of edge }
{
    edge % 256
}

pub fn high(edge: u64) -> u64
    ensures { result ≡ high_of edge }
{
    edge / 256 % 256
}

// The next link of the transition's chain.
pub fn next(edge: u64) -> usize
    ensures { result ≡ next_of edge }
{
    (edge / 65536 % 65536) as usize
}

// The spot to which the transition leads.
pub fn spot(edge: u64) -> u64
    ensures { result ≡ spot_of edge }
{
    edge / 4294967296
}

// Whether the transition covers `byte`; of a start, whether the byte lies between its two.
pub fn covers(edge: u64, byte: u64) -> bool
    ensures { result ≡ covers_word edge byte }
{
    low(edge) <= byte && byte <= high(edge)
}

// The number of a spot's state.
pub fn state(spot: u64) -> u64
    ensures { result ≡ state_of spot }
{
    spot / 2 % 32768
}

// The head of the chain of the transitions that leave it.
pub fn head(spot: u64) -> usize
    ensures { result ≡ head_of spot }
{
    (spot / 65536) as usize
}

pub fn is_final(spot: u64) -> bool
    ensures { result ≡ is_final spot }
{
    spot % 2 == 1
}
