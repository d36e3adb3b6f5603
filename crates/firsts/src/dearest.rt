// What is left of each agent's price sum without the dearest chore, which the table tells.
ghost use Rattle.std.specs.Prelude.{◌-◌, ◌≤◌, ◌≡◌};
ghost use Rattle.firsts.specs.Dearest.{dearest_in, Weighing, Weighed};

use crate::traits::{MID, TOP, View};

// The sum without the dearest chore of an agent whose chores have these traits.
#[tactic(auto, unfolding(crate::specs::Dearest::dearest_in, finite::specs::Bits::bit))]
fn rest(sum: u32, traits: u64, view: View) -> u32
    requires { dearest_in traits sum view.low view.mid view.top ≤ sum }
    ensures { result ≡ sum - dearest_in traits sum view.low view.mid view.top }
{
    if (traits >> TOP) % 2 == 1 {
        return sum - view.top;
    }
    if (traits >> MID) % 2 == 1 {
        return sum - view.mid;
    }
    if sum == 0 {
        return 0;
    }
    sum - view.low
}

// The first n agents' price up to one.
pub fn rests(n: usize, sums: &[u32], sets: &[u64], view: View, ups: &mut [u32; model::MAX_AGENTS])
    requires { Weighing n sums.now sets.now ups.old view.low view.mid view.top }
    ensures { Weighed n sums.now sets.now ups.new view.low view.mid view.top }
{
    for i in 0..n {
        ups[i] = rest(sums[i], sets[i], view);
    }
}
