// What is read off the agents' price sums, prices up to one and groups.
ghost use Rattle.std.specs.Prelude.{◌≡◌, ◌≤◌, ◌<◌, length, get_or, ltb};
ghost use Rattle.finite.specs.Sums.{min_to};
ghost use Rattle.finite.specs.Search.{any_below};
ghost use Rattle.model.specs.Limits.{max_agents};
ghost use Rattle.market.specs.Market.{ByGroup};

use crate::words::with;

pub fn least_of(n: usize, sums: &[u32]) -> u32
    requires { (0 < n) × (n ≤ length sums.now) }
    ensures { result ≡ min_to n (λ i. get_or sums.now i 0) }
{
    sums[..n].iter().copied().min().unwrap()
}

pub fn any_above(n: usize, ups: &[u32], least: u32) -> bool
    requires { n ≤ length ups.now }
    ensures { result ≡ any_below n (λ i. ltb least (get_or ups.now i 0)) }
{
    (0..n).any(|i| ups[i] > least)
}

// The agents in no group, and those in some group.
#[derive(Clone, Copy)]
pub struct Sides {
    pub free: u32,
    pub grouped: u32,
}

pub fn by_group(groups: &[u8]) -> Sides
    requires { length groups.now ≤ max_agents }
    ensures { ByGroup (length groups.now) groups.now result.free result.grouped }
{
    let mut free = 0u32;
    let mut grouped = 0u32;
    for (i, &group) in groups.iter().enumerate() {
        if group == 0 {
            free = with(free, i);
        } else {
            grouped = with(grouped, i);
        }
    }
    Sides { free, grouped }
}
