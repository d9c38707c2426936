// A set of bytes: 256 marks in one record, by value. Sets are joined, tested for overlap, searched for the lowest common byte.
#![tactic(auto)]

ghost use Rattle.std.specs.Prelude.{◌≡◌, false, ◌||◌, ◌&&◌, ℕ, ◌<◌, length};
ghost use Rattle.byte_set.specs.Lowest.{lowest_from};
ghost use Rattle.byte_set.specs.Layers.{mark, Ranged, some_below, lowest_of};

#[derive(Clone, Copy)]
pub struct ByteSet {
    pub marks: [bool; 256],
}

impl ByteSet {
    // No byte.
    pub fn empty() -> ByteSet
        ensures { (b : ℕ) → mark result b ≡ false }
    {
        ByteSet {
            marks: [false; 256],
        }
    }

    // With the bytes of another set.
    pub fn joined(mut self, other: ByteSet) -> ByteSet
        ensures { (b : ℕ) → b < 256 → mark result b ≡ mark self b || mark other b }
    {
        for b in 0..256 {
            self.marks[b] |= other.marks[b];
        }
        self
    }

    // The same where `also`.
    pub fn joined_where(self, also: bool, other: ByteSet) -> ByteSet
        ensures { (b : ℕ) → b < 256 → mark result b ≡ mark self b || also && mark other b }
    {
        if also { self.joined(other) } else { self }
    }

    // Whether some byte is in both sets.
    pub fn overlaps(self, other: ByteSet) -> bool
        ensures { result ≡ some_below (λ b. mark self b && mark other b) 256 }
    {
        let mut common = false;
        for b in 0..256 {
            common |= self.marks[b] & other.marks[b];
        }
        common
    }

    // The lowest byte of both sets. Whether there is one is seen sooner than which it is.
    pub fn lowest_common(self, other: ByteSet) -> Option<usize>
        ensures { result ≡ lowest_of (lowest_from (λ b. mark self b && mark other b) 0 256) }
    {
        if self.overlaps(other) {
            self.search(other)
        } else {
            None
        }
    }

    fn search(self, other: ByteSet) -> Option<usize>
        ensures { result ≡ lowest_of (lowest_from (λ b. mark self b && mark other b) 0 256) }
    {
        (0..256).find(|&b| self.marks[b] && other.marks[b])
    }
}

// Marks the bytes from `low` to `high`, both included.
pub fn mark_range(marks: &mut [bool; 256], low: usize, high: usize)
    requires { high < 256 }
    ensures { Ranged low high marks.old marks.new }
{
    // One byte, without a loop.
    if low == high {
        marks[low] = true;
        return;
    }
    for b in low..=high {
        marks[b] = true;
    }
}
