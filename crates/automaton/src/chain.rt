// Going along the chain of the transitions that leave a state: links in fixed memory, so that no index is counted.
ghost use Rattle.std.specs.Prelude.{◌≡◌, ◌<◌};
ghost use Rattle.std.specs.Iterator.{at_most};
ghost use Rattle.automaton.specs.Layers.{Chained, Follows};

use crate::words;

// The words of the chain that starts at `link`.
#[derive(Drop)]
pub struct Words<'a> {
    pub table: &'a [u64],
    pub link: usize,
}

impl<'a> Iterator for Words<'a> {
    type Item = u64;

    ghost can_next = { λ s. Chained s.table.now s.link };

    ghost next_gives = { λ s r t. Follows s.table.now s.link r t.table.now t.link };

    ghost remaining = { λ s. at_most s.link };

    fn next(&mut self) -> Option<u64> {
        if self.link == 0 {
            return None;
        }
        let e = self.table[self.link];
        self.link = words::next(e);
        Some(e)
    }
}
