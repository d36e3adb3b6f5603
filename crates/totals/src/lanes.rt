// Price sums in lanes: chores that follow one another are added to different sums of their owner, and each agent's are added up after the pass.
ghost use Rattle.std.specs.Prelude.{◌+◌, ◌^◌, ◌<◌, ◌≡◌, length};
ghost use Rattle.finite.specs.Lists.{Table};
ghost use Rattle.model.specs.Limits.{max_agents};
ghost use Rattle.model.specs.Instance.{owner_of, price_of};
ghost use Rattle.model.specs.Prices.{price_sum};
ghost use Rattle.totals.specs.Totals.{Held};
ghost use Rattle.totals.specs.Lanes.{lane_sum, Laned, Adding, Narrow};

// So many partial sums for each agent: an addition need not wait for the one before it.
const LANES: usize = 8;

// The next `count` chores, each in a lane of its own.
fn add_some(
    owners: &[u8],
    prices: &[u32],
    from: usize,
    count: usize,
    lanes: &mut [u32; LANES * model::MAX_AGENTS],
)
    requires { Adding from count owners.now prices.now lanes.old }
    ensures { Laned (from + count) owners.now prices.now lanes.new }
{
    for q in 0..count {
        let o = owners[from + q] as usize - 1;
        lanes[model::MAX_AGENTS * q + o] += prices[from + q];
    }
}

// Agent i's lanes added up.
fn lane_sum(lanes: &[u32; LANES * model::MAX_AGENTS], i: usize) -> u32
    requires { (i < max_agents) × (lane_sum lanes.now i < 2 ^ 32) }
    ensures { result ≡ lane_sum lanes.now i }
{
    (0..LANES).map(|q| lanes[model::MAX_AGENTS * q + i]).sum()
}

// The lanes of each agent added up.
fn add_lanes(lanes: &[u32; LANES * model::MAX_AGENTS], sums: &mut [u32; model::MAX_AGENTS])
    requires { Narrow lanes.now × (length sums.old ≡ max_agents) }
    ensures { Table max_agents (lane_sum lanes.now) sums.new }
{
    for (i, sum) in sums.iter_mut().enumerate() {
        *sum = lane_sum(lanes, i);
    }
}

// Each price is added to its owner's sum, all in one pass over the chores.
pub fn add_up(owners: &[u8], prices: &[u32], sums: &mut [u32; model::MAX_AGENTS])
    requires { Held owners.now prices.now × (length sums.old ≡ max_agents) }
    ensures { Table max_agents (price_sum (length owners.now) (owner_of owners.now) (price_of prices.now)) sums.new }
{
    let mut lanes = [0; LANES * model::MAX_AGENTS];
    let full = owners.len() / LANES;
    for k in 0..full {
        add_some(owners, prices, LANES * k, LANES, &mut lanes);
    }
    add_some(
        owners,
        prices,
        LANES * full,
        owners.len() % LANES,
        &mut lanes,
    );
    add_lanes(&lanes, sums);
}
