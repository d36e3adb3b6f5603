// The price cut of step 3.
ghost use Rattle.std.specs.Prelude.{◌≡◌, cond, ◌*◌, ◌/◌, ◌≤◌, ◌<◌, length, get_or};
ghost use Rattle.finite.specs.Bits.{bit};
ghost use Rattle.finite.specs.Lists.{tabulate};
ghost use Rattle.model.specs.Limits.{max_agents};
ghost use Rattle.market.specs.Cutting.{Cutting, CutPrices};

use crate::words::has;

// What the agents of the set hold becomes entitled and cheaper.
pub fn cut_prices(
    owners: &[u8],
    prices: &mut [u32],
    entitled: &mut [u8],
    reached: u32,
    a: u32,
    b: u32,
)
    requires { Cutting owners.now prices.old entitled.old a b }
    ensures { CutPrices owners.now prices.old entitled.old prices.new entitled.new reached a b }
{
    for (c, &owner) in owners.iter().enumerate() {
        if has(reached, owner as usize - 1) {
            prices[c] = prices[c] * a / b;
            entitled[c] = 1;
        }
    }
}

// The agents of the set become a group.
pub fn cut_groups(groups: &mut [u8], reached: u32, number: u8)
    requires { length groups.old ≤ max_agents }
    ensures { groups.new ≡ tabulate (length groups.old) (λ i. cond (bit reached i) number (get_or groups.old i 0)) }
{
    for (i, group) in groups.iter_mut().enumerate() {
        if has(reached, i) {
            *group = number;
        }
    }
}
