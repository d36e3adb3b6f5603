// Which agents are connected to a burdened one, who owns a chore difficult for it: they can pass an easy chore on to it, from agent to
// agent; and in how few steps.

ghost use Rattle.std.specs.Prelude.{◌≡◌, ◌+◌, ◌<◌, ◌&&◌, length};
ghost use Rattle.finite.specs.Search.{first_below, if_below};
ghost use Rattle.model.specs.Limits.{max_agents};
ghost use Rattle.model.specs.Instance.{owner_of};
ghost use Rattle.model.specs.Sheet.{agents_of, chores_of, marks_easy, as_marked};
ghost use Rattle.welfare.specs.Waste.{passes_on};
ghost use Rattle.given.specs.Given.{Given};
ghost use Rattle.waste.specs.Rings.{no_distance, Spread, Rings};
ghost use Rattle.waste.specs.Tests.{takes, wasted};

use sheet::valid::Sheet;

// The entry of an agent without a distance. Distances are below the number of agents. An option is no plainer: searches compare distances with a
// limit, and this one is above them all.
pub const NO_DISTANCE: u8 = 255;

// Distance 0: the agents that own a chore difficult for them.
fn first_ring(sheet: &Sheet, owners: &[u8], distances: &mut [u8; model::MAX_AGENTS])
    requires given { Given sheet.now owners.now }
    requires distances_len { length distances.old ≡ max_agents }
    ensures { Rings (as_marked sheet.now) (owner_of owners.now) 0 distances.new }
{
    for i in 0..sheet.agents() {
        distances[i] = if given::first_burden(sheet, owners, i).is_some() {
            0
        } else {
            NO_DISTANCE
        };
    }
}

fn easy_for_both(sheet: &Sheet, i: usize, j: usize, c: usize) -> bool
    requires agents { (i < agents_of sheet.now) × (j < agents_of sheet.now) }
    requires chore { c < chores_of sheet.now }
    ensures { result ≡ (marks_easy sheet.now i c && marks_easy sheet.now j c) }
{
    sheet.is_easy(i, c) && sheet.is_easy(j, c)
}

// Gives the distance `next` to each agent without one that owns a chore easy for it and for agent j.
fn spread_from(
    sheet: &Sheet,
    owners: &[u8],
    j: usize,
    next: u8,
    distances: &mut [u8; model::MAX_AGENTS],
)
    requires given { Given sheet.now owners.now }
    requires j_bound { j < agents_of sheet.now }
    requires next_lt_no_distance { next < no_distance }
    requires distances_len { length distances.old ≡ max_agents }
    ensures { Spread (agents_of sheet.now) next (λ i. passes_on (as_marked sheet.now) (owner_of owners.now) i j) distances.old distances.new }
{
    for c in 0..sheet.chores() {
        let i = given::owner(owners, c);
        if distances[i] == NO_DISTANCE && easy_for_both(sheet, i, j, c) {
            distances[i] = next;
        }
    }
}

// The ring after t. Each agent is in one ring, so all rings together spread each agent once.
fn next_ring(sheet: &Sheet, owners: &[u8], t: u8, distances: &mut [u8; model::MAX_AGENTS])
    requires given { Given sheet.now owners.now }
    requires t_bound { t < agents_of sheet.now }
    requires rings { Rings (as_marked sheet.now) (owner_of owners.now) t distances.old }
    ensures { Rings (as_marked sheet.now) (owner_of owners.now) (t + 1) distances.new }
{
    for j in 0..sheet.agents() {
        if distances[j] == t {
            spread_from(sheet, owners, j, t + 1, distances);
        }
    }
}

// All rings: as many as there are agents hold every agent that any number would.
pub fn find_distances(sheet: &Sheet, owners: &[u8]) -> [u8; model::MAX_AGENTS]
    requires { Given sheet.now owners.now }
    ensures { Rings (as_marked sheet.now) (owner_of owners.now) (agents_of sheet.now) result }
{
    let mut distances = [NO_DISTANCE; model::MAX_AGENTS];
    first_ring(sheet, owners, &mut distances);
    for t in 0..sheet.agents() as u8 {
        next_ring(sheet, owners, t, &mut distances);
    }
    distances
}

// The first agent nearer than the limit that finds chore c easy. Every agent with a distance is nearer than NO_DISTANCE.
pub fn first_taker(
    sheet: &Sheet,
    distances: &[u8; model::MAX_AGENTS],
    limit: u8,
    c: usize,
) -> Option<usize>
    requires { c < chores_of sheet.now }
    ensures { result ≡ if_below (agents_of sheet.now) (first_below (agents_of sheet.now) (takes sheet.now distances.now limit c)) }
{
    (0..sheet.agents()).find(|&j| distances[j] < limit && sheet.is_easy(j, c))
}

// The first chore that is difficult for its owner and easy for a connected agent.
pub fn first_wasted(
    sheet: &Sheet,
    owners: &[u8],
    distances: &[u8; model::MAX_AGENTS],
) -> Option<usize>
    requires { Given sheet.now owners.now }
    ensures { result ≡ if_below (chores_of sheet.now) (first_below (chores_of sheet.now) (wasted sheet.now owners.now distances.now)) }
{
    (0..sheet.chores()).find(|&c| {
        !sheet.is_easy(given::owner(owners, c), c)
            && first_taker(sheet, distances, NO_DISTANCE, c).is_some()
    })
}
