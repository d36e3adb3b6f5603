// Sums of all agents: price sums, in one pass over the chores, and the first sum that is below a limit or the least.
#![tactic(auto)]

ghost use Rattle.std.specs.Prelude.{true, ◌≡◌, ◌≤◌, ◌<◌, ltb, length, get_or, replicate};
ghost use Rattle.finite.specs.Search.{first_below, if_below, chosen};
ghost use Rattle.model.specs.Limits.{max_agents};
ghost use Rattle.totals.specs.Totals.{Parts, TakenOff, Summing, Summed};

pub mod lanes;

// For a lent scratch, which ends as zeros.
pub fn clear(xs: &mut [u8])
    ensures { xs.new ≡ replicate (length xs.old) 0 }
{
    xs.fill(0);
}

// The dearest becomes what is left of the sum without it.
fn take_off(n: usize, sums: &[u32; model::MAX_AGENTS], dearest: &mut [u32; model::MAX_AGENTS])
    requires { Parts n sums.now dearest.old }
    ensures { TakenOff n sums.now dearest.old dearest.new }
{
    for i in 0..n {
        dearest[i] = sums[i] - dearest[i];
    }
}

// Each price is added to its owner's sum. `ups` gets each agent's dearest price, and then, for the first n, the price up to one. Both are
// lent, since arrays that are returned are copied. The loop goes by index: over the two lists zipped it was measured slower.
pub fn sum_up(
    n: usize,
    owners: &[u8],
    prices: &[u32],
    sums: &mut [u32; model::MAX_AGENTS],
    ups: &mut [u32; model::MAX_AGENTS],
)
    requires { Summing n owners.now prices.now sums.old ups.old }
    ensures { Summed n owners.now prices.now sums.new ups.new }
{
    for c in 0..owners.len() {
        let o = owners[c] as usize - 1;
        let price = prices[c];
        sums[o] += price;
        if ups[o] < price {
            ups[o] = price;
        }
    }
    take_off(n, sums, ups);
}

// The first of n agents whose sum is below a limit.
pub fn first_below(n: usize, sums: &[u32; model::MAX_AGENTS], limit: u32) -> Option<usize>
    requires { n ≤ max_agents }
    ensures { result ≡ if_below n (first_below n (λ i. ltb (get_or sums.now i 0) limit)) }
{
    (0..n).find(|&i| sums[i] < limit)
}

// The first of n agents whose sum is the least.
pub fn first_least(n: usize, sums: &[u32; model::MAX_AGENTS]) -> usize
    requires { (0 < n) × (n ≤ max_agents) }
    ensures { result ≡ chosen n (λ i. true) (λ j i. ltb (get_or sums.now j 0) (get_or sums.now i 0)) }
{
    let mut best = 0;
    for i in 1..n {
        if sums[i] < sums[best] {
            best = i;
        }
    }
    best
}
