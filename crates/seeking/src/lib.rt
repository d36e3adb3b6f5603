// The move that is due in a state of Algorithm 1: in 2a the choice at the group at work, in 2b what the search finds.
#![tactic(auto)]

ghost use Rattle.std.specs.Prelude.{◌≡◌, ◌<◌, ℕ, List, length, MatchOption};
ghost use Rattle.model.specs.Limits.{max_agents, scratch_size};
ghost use Rattle.model.specs.Sheet.{agents_of};
ghost use Rattle.sheet.specs.Valid.{Valid};
ghost use Rattle.totals.specs.Totals.{Summed};
ghost use Rattle.firsts.specs.Traits.{free_trait};
ghost use Rattle.seeking.specs.Looks.{Views, Looking, Seeing, Choice, IsDue};

use firsts::dearest::rests;
use firsts::traits::{FREE, View};
use market::choices::{greatest_in, least_after};
use market::sums::{any_above, by_group, least_of};
use market::words::lowest;
use rings::search::search;
use sheet::valid::Sheet;
use totals::lanes::add_up;

// The view of a state, that its table goes by: the agents by their groups, and the prices that there are.
pub fn view_of(sheet: &Sheet, groups: &[u8]) -> View
    requires { Valid sheet.now × (length groups.now ≡ agents_of sheet.now) }
    ensures { Views sheet.now groups.now result.free result.grouped result.low result.mid result.top }
{
    let a = sheet.easy_weight();
    let b = sheet.difficult_weight();
    let sides = by_group(groups);
    View {
        free: sides.free,
        grouped: sides.grouped,
        low: a * a,
        mid: a * b,
        top: b * b,
    }
}

// Each agent's price sum, and its price up to one.
fn weigh(
    sheet: &Sheet,
    owners: &[u8],
    prices: &[u32],
    sets: &[u64],
    view: View,
    sums: &mut [u32; model::MAX_AGENTS],
    ups: &mut [u32; model::MAX_AGENTS],
)
    requires seeing { Seeing sheet.now owners.now prices.now sets.now view.free view.grouped view.low view.mid view.top }
    requires sums_len { (length sums.old ≡ max_agents) × (length ups.old ≡ max_agents) }
    ensures { Summed (agents_of sheet.now) owners.now prices.now sums.new ups.new }
{
    add_up(owners, prices, sums);
    rests(sheet.agents(), sums, sets, view, ups);
}

// A move: the giver, the receiver, and the trait of the chore that goes.
#[derive(Clone, Copy)]
pub struct Move {
    pub giver: usize,
    pub receiver: usize,
    pub sought: usize,
}

// What is due: a move; on to the next group, in 2a; in 2b with nobody to give, the cut, or the end where nobody is above the least sum.
#[derive(Clone, Copy)]
pub enum Due {
    Hand(Move),
    Pass,
    Cut,
    End,
}

// What is due in 2b: the receiver is the lowest of those whom the search found.
fn look(
    sheet: &Sheet,
    owners: &[u8],
    prices: &[u32],
    sets: &[u64],
    view: View,
    scratch: &mut [u8],
) -> Due
    requires seeing { Seeing sheet.now owners.now prices.now sets.now view.free view.grouped view.low view.mid view.top }
    requires scratch_len { length scratch.old ≡ scratch_size }
    ensures { (groups : List ℕ) → IsDue sheet.now owners.now prices.now groups 0 result scratch.old scratch.new }
{
    let n = sheet.agents();
    let mut sums = [0; model::MAX_AGENTS];
    let mut ups = [0; model::MAX_AGENTS];
    weigh(sheet, owners, prices, sets, view, &mut sums, &mut ups);
    let least = least_of(n, &sums);
    match search(n, sets, &sums, &ups, least, scratch) {
        Some(found) => {
            let receiver = lowest(found.takers, n).unwrap();
            Due::Hand(Move {
                giver: found.giver,
                receiver,
                sought: receiver,
            })
        }
        None if any_above(n, &ups, least) => Due::Cut,
        None => Due::End,
    }
}

// The move that is due in 2a at the group at work, if one is: what goes is not entitled.
fn choose(
    sheet: &Sheet,
    owners: &[u8],
    prices: &[u32],
    groups: &[u8],
    sets: &[u64],
    view: View,
    stage: u8,
) -> Option<Move>
    requires { Looking sheet.now owners.now prices.now groups.now sets.now view.free view.grouped view.low view.mid view.top }
    ensures { MatchOption result
        (Choice sheet.now owners.now prices.now groups.now stage (agents_of sheet.now) (agents_of sheet.now) free_trait)
        (λ m. (m.giver < agents_of sheet.now) × Choice sheet.now owners.now prices.now groups.now stage m.giver m.receiver m.sought) }
{
    let mut sums = [0; model::MAX_AGENTS];
    let mut ups = [0; model::MAX_AGENTS];
    weigh(sheet, owners, prices, sets, view, &mut sums, &mut ups);
    let giver = greatest_in(groups, &ups, stage)?;
    let receiver = least_after(groups, &sums, stage)?;
    if ups[giver] > sums[receiver] {
        Some(Move {
            giver,
            receiver,
            sought: FREE,
        })
    } else {
        None
    }
}

// What is due.
pub fn seek(
    sheet: &Sheet,
    owners: &[u8],
    prices: &[u32],
    groups: &[u8],
    sets: &[u64],
    view: View,
    scratch: &mut [u8],
    stage: u8,
) -> Due
    requires looking { Looking sheet.now owners.now prices.now groups.now sets.now view.free view.grouped view.low view.mid view.top }
    requires scratch_len { length scratch.old ≡ scratch_size }
    ensures { IsDue sheet.now owners.now prices.now groups.now stage result scratch.old scratch.new }
{
    if stage == 0 {
        return look(sheet, owners, prices, sets, view, scratch);
    }
    choose(sheet, owners, prices, groups, sets, view, stage).map_or(Due::Pass, Due::Hand)
}
