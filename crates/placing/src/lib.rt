// A list in which nobody's chores cost more than its own measure. Costs are counted in units of the easy weight: an easy chore costs 1, a
// difficult one q. Each agent gets places, which may go to any chore, and for the rest of its measure chores that are easy for it.
#![tactic(auto)]

ghost use Rattle.std.specs.Prelude.{ℕ, ◌≡◌, ◌≤◌, ◌<◌, false, MatchOption, length, replicate};
ghost use Rattle.model.specs.Limits.{max_agents};
ghost use Rattle.model.specs.Sheet.{agents_of, chores_of, easy_weight};
ghost use Rattle.sheet.specs.Valid.{Valid};
ghost use Rattle.quotas.specs.Quotas.{places_in_all};
ghost use Rattle.placing.specs.Filling.{QuotaTaken, Roomy, AllPlaced, HasPlace};
ghost use Rattle.placing.specs.Queueing.{waits, EasyCounted, Served, NextAgent, AllServed};
ghost use Rattle.placing.specs.Sheets.{units_on, units_of, Taking, Seeking, MeasuredSheet, Within};

use sheet::valid::Sheet;

// How many chores each agent finds easy.
fn easy_counts(sheet: &Sheet) -> [u32; model::MAX_AGENTS]
    ensures { EasyCounted (units_on sheet.now) (agents_of sheet.now) result }
{
    let mut counts = [0; model::MAX_AGENTS];
    for i in 0..sheet.agents() {
        let difficult = sheet.difficult_marks(i);
        let easy = sheet.chores() - difficult;
        counts[i] = easy as u32;
    }
    counts
}

// How many places there are: the difficult marks of an agent, on the average.
fn places_in_all(sheet: &Sheet) -> u32
    ensures { result ≡ places_in_all (units_on sheet.now) }
{
    let n = sheet.agents();
    let difficult: usize = (0..n).map(|i| sheet.difficult_marks(i)).sum();
    (difficult / n) as u32
}

// Agent j takes chores that have no owner and are easy for it, by number, up to its quota.
fn take_easy(sheet: &Sheet, j: usize, quota: u32, owners: &mut [u8])
    requires { Taking sheet.now j owners.old }
    ensures { QuotaTaken (units_on sheet.now) j quota owners.old owners.new }
{
    let mut left = quota;
    for (c, owner) in owners.iter_mut().enumerate() {
        if left == 0 {
            break;
        }
        if *owner == 0 && sheet.is_easy(j, c) {
            *owner = (j + 1) as u8;
            left -= 1;
        }
    }
}

// Agent j gets places for as many difficult chores as fit its measure, while there are places left, and easy chores for what then remains of its
// measure. Returns how many places are left for the others.
fn serve(
    sheet: &Sheet,
    j: usize,
    measure: u32,
    q: u32,
    left: u32,
    places: &mut [u32; model::MAX_AGENTS],
    owners: &mut [u8],
) -> u32
    requires taking { Taking sheet.now j owners.old }
    requires q_nonzero { (0 < q) × (q ≡ (units_on sheet.now).b) }
    ensures { Served (units_on sheet.now) j measure left places.old owners.old places.new owners.new result }
{
    let mine = (measure / q).min(left);
    places[j] = mine;
    take_easy(sheet, j, measure - q * mine, owners);
    left - mine
}

// Of the agents who wait the first that finds fewest chores easy.
fn next_agent(
    n: usize,
    counts: &[u32; model::MAX_AGENTS],
    waiting: &[bool; model::MAX_AGENTS],
) -> Option<usize>
    requires { n ≤ max_agents }
    ensures { MatchOption result ((k : ℕ) → k < n → waits waiting.now k ≡ false) (λ j. NextAgent n counts.now waiting.now j) }
{
    (0..n).filter(|&k| waiting[k]).min_by_key(|&k| counts[k])
}

// All agents are served: of those who wait, always the first that finds fewest chores easy.
fn serve_all(
    sheet: &Sheet,
    measures: &[u32; model::MAX_AGENTS],
    places: &mut [u32; model::MAX_AGENTS],
    owners: &mut [u8],
)
    requires measured_sheet { MeasuredSheet sheet.now measures.now }
    requires places_value { places.old ≡ replicate max_agents 0 }
    requires owners_value { owners.old ≡ replicate (chores_of sheet.now) 0 }
    ensures served { AllServed (units_on sheet.now) (units_of (easy_weight sheet.now) measures.now) places.new owners.new }
    ensures valid { Valid sheet.now }
{
    let n = sheet.agents();
    let a = sheet.easy_weight();
    let q = sheet.difficult_weight() / a;
    let counts = easy_counts(sheet);
    let mut waiting = [true; model::MAX_AGENTS];
    let mut left = places_in_all(sheet);
    while let Some(j) = next_agent(n, &counts, &waiting) {
        left = serve(sheet, j, measures[j] / a, q, left, places, owners);
        waiting[j] = false;
    }
}

// More than any number of places.
const FAR: u32 = 4096;

// The agent with a place that chore c goes to best: it is easy for it, if it is for any, and it has most places. The first of such agents. Both are
// one number: two, compared one after the other, were measured slower.
fn taker(sheet: &Sheet, c: usize, places: &[u32; model::MAX_AGENTS]) -> usize
    requires { Seeking sheet.now c places.now }
    ensures place { HasPlace (agents_of sheet.now) result places.now }
    ensures valid { Valid sheet.now }
{
    (0..sheet.agents())
        .filter(|&k| places[k] > 0)
        .min_by_key(|&k| (u32::from(sheet.mark(k, c)) * FAR + FAR).wrapping_sub(places[k]))
        .unwrap()
}

// Each chore that has no owner goes to an agent with a place, which it takes up.
fn place_rest(sheet: &Sheet, places: &mut [u32; model::MAX_AGENTS], owners: &mut [u8])
    requires { Roomy (units_on sheet.now) places.old owners.old }
    ensures { AllPlaced (units_on sheet.now) places.old owners.old owners.new }
{
    for (c, owner) in owners.iter_mut().enumerate() {
        if *owner == 0 {
            let k = taker(sheet, c, places);
            *owner = (k + 1) as u8;
            places[k] -= 1;
        }
    }
}

// Writes such a list over the one that is lent, whatever it held.
pub fn list_within(sheet: &Sheet, measures: &[u32; model::MAX_AGENTS], owners: &mut [u8])
    requires measured_sheet { MeasuredSheet sheet.now measures.now }
    requires owners_len { length owners.old ≡ chores_of sheet.now }
    ensures { Within sheet.now owners.new }
{
    let mut places = [0; model::MAX_AGENTS];
    owners.fill(0);
    serve_all(sheet, measures, &mut places, owners);
    place_rest(sheet, &mut places, owners);
}
