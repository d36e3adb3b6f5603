// The rows of the table, a place for each trait. A set of traits is the bits of a word.
ghost use Rattle.std.specs.Prelude.{MatchOption, ◌+◌, ◌*◌, ◌^◌, ◌≤◌, ◌<◌, min, cond, ◌&&◌, ◌≡◌, leb, length, get_or};
ghost use Rattle.std.specs.Iterator.{at_most};
ghost use Rattle.finite.specs.Bits.{bit, SetOf};
ghost use Rattle.model.specs.Limits.{max_agents, max_chores};
ghost use Rattle.firsts.specs.Traits.{trait_count};
ghost use Rattle.firsts.specs.Bits.{NextBit};
ghost use Rattle.firsts.specs.Table.{Spot, Put, Gained};

use crate::table::Table;
use crate::traits::TRAITS;

// The bits of a word that are still to come, the lowest first.
#[derive(Drop)]
struct Bits(u64);

impl Iterator for Bits {
    type Item = usize;

    ghost next_gives = { λ old r new. MatchOption r ((old.0 ≡ 0) × (new.0 ≡ 0)) (λ t. NextBit old.0 t new.0) };

    ghost remaining = { λ s. at_most s.0 };

    #[inline(always)]
    fn next(&mut self) -> Option<usize> {
        if self.0 == 0 {
            return None;
        }
        let t = self.0.trailing_zeros() as usize;
        self.0 &= self.0 - 1;
        Some(t)
    }
}

// 1 where chore d is not before chore c, else 0. By arithmetic, since a test would often be guessed wrong.
fn late(d: u16, c: usize) -> u64
    requires { c ≤ max_chores }
    ensures { result ≡ cond (leb c d) 1 0 }
{
    (d as u64 + 65536 - c as u64) >> 16
}

// The traits of a set that no chore before c has in agent w's row.
pub fn not_before(first: &[u16], w: usize, c: usize, word: u64) -> u64
    requires { Spot first.now w word × (c ≤ max_chores) }
    ensures { SetOf trait_count result (λ t. bit word t && leb c (get_or first.now (w * trait_count + t) 0)) }
{
    let mut found = 0u64;
    for t in Bits(word) {
        found |= late(first[w * TRAITS + t], c) << t;
    }
    found
}

// Chore c becomes the first with these traits.
pub fn put(first: &mut [u16], w: usize, c: usize, word: u64)
    requires { Spot first.old w word × (c ≤ max_chores) }
    ensures { Put w c word first.old first.new }
{
    for t in Bits(word) {
        first[w * TRAITS + t] = c as u16;
    }
}

// The earlier of two chores, by arithmetic too.
fn earlier(c: usize, d: u16) -> u16
    requires { c ≤ max_chores }
    ensures { result ≡ min c d }
{
    let first = late(d, c);
    (first * c as u64 + (1 - first) * d as u64) as u16
}

impl Table {
    // Agent w gains chore c, which has these traits: the earlier chore is the first. Each entry is stored, changed or not.
    pub fn gain(&mut self, w: usize, c: usize, word: u64)
        requires { (w < max_agents) × (word < 2 ^ trait_count) × (c ≤ max_chores) }
        ensures { Gained w c word self.old.first self.old.sets self.new.first self.new.sets }
    {
        for t in Bits(word) {
            self.first[w * TRAITS + t] = earlier(c, self.first[w * TRAITS + t]);
        }
        self.sets[w] |= word;
    }
}
