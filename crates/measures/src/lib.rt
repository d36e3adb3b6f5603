// Everyone's own measure: for each agent what the costliest bundle costs it when its chores are dealt, difficult ones first, each to the bundle
// that costs least so far. Only what the bundles cost is kept.
#![tactic(auto)]

ghost use Rattle.std.specs.Prelude.{◌≡◌, ◌≤◌, ◌<◌, ◌++◌, IfOk, MatchResult, get_or, drop, replicate};
ghost use Rattle.std.specs.Int.{◌∣◌};
ghost use Rattle.finite.specs.Sums.{max_to};
ghost use Rattle.model.specs.Limits.{max_agents};
ghost use Rattle.model.specs.Sheet.{agents_of, easy_weight, difficult_weight, as_marked};
ghost use Rattle.model.specs.MaximinShare.{maximin_share, measures_of};
ghost use Rattle.model.specs.RefusalNumbers.{refusal_number, number_of};
ghost use Rattle.model.specs.Refusals.{measures_refusal};
ghost use Rattle.model.specs.Promises.{Measured};
ghost use Rattle.measures.specs.Dealing.{cheapest, dealt_on, Dealing, LevelDealt};

use model::Refusal;
use sheet::valid::Sheet;

// One chore for each bundle that costs `least`, in their order, while there are chores left: each of them is the cheapest when its turn comes.
// Returns how many are left. Whether any are is asked of such a bundle alone: of each one it was measured slower.
fn deal_level(
    n: usize,
    weight: u32,
    least: u32,
    count: usize,
    costs: &mut [u32; model::MAX_AGENTS],
) -> usize
    requires dealing { Dealing n weight count costs.old }
    requires least_value { least ≡ get_or costs.old (cheapest n costs.old) 0 }
    ensures { LevelDealt n weight count costs.old costs.new result }
{
    let mut left = count;
    for cost in &mut costs[..n] {
        if *cost == least {
            if left == 0 {
                break;
            }
            *cost += weight;
            left -= 1;
        }
    }
    left
}

// Chores of one cost, each to the first of the cheapest bundles. These are looked for once a level, not once a chore.
fn deal(n: usize, weight: u32, count: usize, costs: &mut [u32; model::MAX_AGENTS])
    requires { Dealing n weight count costs.old }
    ensures { costs.new ≡ dealt_on n weight count costs.old }
{
    let mut left = count;
    while left > 0 {
        let least = costs[totals::first_least(n, costs)];
        left = deal_level(n, weight, least, left, costs);
    }
}

// The greatest of n costs.
fn costliest(n: usize, costs: &[u32; model::MAX_AGENTS]) -> u32
    requires { n ≤ max_agents }
    ensures { result ≡ max_to n (λ k. get_or costs.now k 0) }
{
    costs[..n].iter().copied().fold(0, u32::max)
}

// Agent i's maximin share.
fn share(sheet: &Sheet, i: usize) -> u32
    requires divides { easy_weight sheet.now ∣ difficult_weight sheet.now }
    requires agent { i < agents_of sheet.now }
    ensures { result ≡ maximin_share (as_marked sheet.now) i }
{
    let n = sheet.agents();
    let difficult = sheet.difficult_marks(i);
    let easy = sheet.chores() - difficult;
    let mut costs = [0; model::MAX_AGENTS];
    deal(n, sheet.difficult_weight(), difficult, &mut costs);
    deal(n, sheet.easy_weight(), easy, &mut costs);
    costliest(n, &costs)
}

// A sheet that the measures are told of, or what it is turned down for.
pub fn admit(bytes: &[u8]) -> Result<Sheet<'_>, Refusal>
    ensures number { number_of result ≡ measures_refusal bytes.now }
    ensures same { IfOk result (λ sheet. sheet ≡ bytes.now) }
{
    let sheet = Sheet::read(bytes)?;
    if sheet.difficult_weight() % sheet.easy_weight() != 0 {
        return Err(Refusal::Multiple);
    }
    Ok(sheet)
}

// The numbers of the agents in the first entries of a list. The others keep what they held.
pub fn write_shares(sheet: &Sheet, numbers: &mut [u32; model::MAX_AGENTS])
    requires { easy_weight sheet.now ∣ difficult_weight sheet.now }
    ensures { numbers.new ≡ measures_of sheet.now ++ drop (agents_of sheet.now) numbers.old }
{
    for i in 0..sheet.agents() {
        numbers[i] = share(sheet, i);
    }
}

// The same for a sheet that is judged first. With a refusal all entries keep what they held.
pub fn measures_over(sheet: &[u8], numbers: &mut [u32; model::MAX_AGENTS]) -> Result<(), Refusal>
    ensures { Measured sheet.now numbers.old (number_of result) numbers.new }
{
    let sheet = admit(sheet)?;
    write_shares(&sheet, numbers);
    Ok(())
}

// The numbers of all agents, in their order, and 0 after them.
pub fn measures(sheet: &[u8]) -> Result<[u32; model::MAX_AGENTS], Refusal>
    ensures { MatchResult result (λ numbers. Measured sheet.now (replicate max_agents 0) 0 numbers)
        (λ refusal. Measured sheet.now (replicate max_agents 0) (refusal_number refusal) (replicate max_agents 0)) }
{
    let mut numbers = [0; model::MAX_AGENTS];
    measures_over(sheet, &mut numbers)?;
    Ok(numbers)
}
