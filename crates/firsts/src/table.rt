// The table: filled in one pass over the chores, and kept when a chore is handed on.
ghost use Rattle.std.specs.Prelude.{◌+◌, ◌*◌, ◌^◌, ◌≤◌, ◌<◌, ◌≡◌, length, get_or};
ghost use Rattle.finite.specs.Bits.{SetOf};
ghost use Rattle.model.specs.Limits.{max_agents, max_chores};
ghost use Rattle.model.specs.Instance.{owner_of};
ghost use Rattle.firsts.specs.Traits.{trait_count, has_trait};
ghost use Rattle.firsts.specs.Table.{Sized, Spot, Firsts, Listed, SearchedOn, Lost, HandedOn};

use crate::rows::{not_before, put};
use crate::traits::{Chores, TRAITS};

// For each agent and each trait the first chore, a row of entries for each agent, and for each agent the set of its chores' traits.
#[derive(Drop)]
pub struct Table {
    pub first: [u16; model::MAX_AGENTS * TRAITS],
    pub sets: [u64; model::MAX_AGENTS],
}

impl Table {
    // A table to be filled.
    #[inline]
    pub fn new() -> Table
        ensures { Sized result.first result.sets }
    {
        Table {
            first: [0; model::MAX_AGENTS * TRAITS],
            sets: [0; model::MAX_AGENTS],
        }
    }

    // In one pass over the chores: each agent's first chore of each trait.
    pub fn fill(&mut self, n: usize, owners: &[u8], chores: &Chores)
        requires { Listed n owners.now chores.now.prices.now chores.now.entitled.now chores.now.likes.now }
        ensures { Firsts n (length owners.now) (owner_of owners.now) (has_trait chores.now.prices.now chores.now.entitled.now chores.now.likes.now chores.now.view.free chores.now.view.grouped chores.now.view.mid chores.now.view.top) self.new.first self.new.sets }
    {
        // No trait has a chore yet, for which the number of chores stands.
        self.first[..n * TRAITS].fill(owners.len() as u16);
        self.sets[..n].fill(0);
        for c in 0..owners.len() {
            let w = owners[c] as usize - 1;
            let word = chores.traits(c);
            if self.sets[w] | word != self.sets[w] {
                self.gain(w, c, word);
            }
        }
    }

    // The search for agent w's next chore after c with each of the missing traits. Answers the traits that none has.
    fn search_on(&mut self, owners: &[u8], chores: &Chores, w: usize, c: usize, missing: u64) -> u64
        requires { Listed max_agents owners.now chores.now.prices.now chores.now.entitled.now chores.now.likes.now × (w < max_agents) × (missing < 2 ^ trait_count) × (c < length owners.now) }
        ensures row { SearchedOn (length owners.now) (owner_of owners.now) (has_trait chores.now.prices.now chores.now.entitled.now chores.now.likes.now chores.now.view.free chores.now.view.grouped chores.now.view.mid chores.now.view.top) w c missing result self.old.first self.new.first }
        ensures sets { self.new.sets ≡ self.old.sets }
    {
        let mut left = missing;
        for k in c + 1..owners.len() {
            if left == 0 {
                break;
            }
            if owners[k] as usize - 1 == w {
                let found = left & chores.traits(k);
                put(&mut self.first, w, k, found);
                left ^= found;
            }
        }
        left
    }

    // Agent w loses chore c, which has these traits: where it was the first, the search goes on from it.
    fn lose(&mut self, owners: &[u8], chores: &Chores, w: usize, c: usize, word: u64)
        requires listed { Listed max_agents owners.now chores.now.prices.now chores.now.entitled.now chores.now.likes.now × (w < max_agents) × (c < length owners.now) }
        requires set_of { SetOf trait_count word (λ t. has_trait chores.now.prices.now chores.now.entitled.now chores.now.likes.now chores.now.view.free chores.now.view.grouped chores.now.view.mid chores.now.view.top t c) }
        ensures { Lost (length owners.now) (owner_of owners.now) (has_trait chores.now.prices.now chores.now.entitled.now chores.now.likes.now chores.now.view.free chores.now.view.grouped chores.now.view.mid chores.now.view.top) w c self.old.first self.old.sets self.new.first self.new.sets }
    {
        let missing = not_before(&self.first, w, c, word);
        let left = self.search_on(owners, chores, w, c, missing);
        put(&mut self.first, w, owners.len(), left);
        self.sets[w] ^= left;
    }

    // The chore goes from its owner to agent u, in the list and in the table.
    pub fn hand_on(&mut self, owners: &mut [u8], chores: &Chores, chore: usize, u: usize)
        requires { Listed max_agents owners.old chores.now.prices.now chores.now.entitled.now chores.now.likes.now × (chore < length owners.old) × (u < max_agents) }
        ensures { HandedOn (has_trait chores.now.prices.now chores.now.entitled.now chores.now.likes.now chores.now.view.free chores.now.view.grouped chores.now.view.mid chores.now.view.top) chore u owners.old self.old.first self.old.sets owners.new self.new.first self.new.sets }
    {
        let w = owners[chore] as usize - 1;
        let word = chores.traits(chore);
        self.lose(owners, chores, w, chore, word);
        self.gain(u, chore, word);
        owners[chore] = u as u8 + 1;
    }

    // Agent w's first chore with trait t.
    pub fn first_of(&self, w: usize, t: usize) -> usize
        requires { (w < max_agents) × (t < trait_count) }
        ensures { result ≡ get_or self.now.first (w * trait_count + t) 0 }
    {
        self.first[w * TRAITS + t] as usize
    }
}
