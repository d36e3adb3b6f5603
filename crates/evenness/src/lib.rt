// Evenness: the first agent that is worse off than another although some of its chores, the costliest first, are taken off.
#![tactic(auto)]

ghost use Rattle.std.specs.Prelude.{◌≡◌, ◌+◌, ◌<◌, replicate};
ghost use Rattle.finite.specs.Search.{first_below, if_below};
ghost use Rattle.finite.specs.Lists.{Table};
ghost use Rattle.model.specs.Limits.{max_agents};
ghost use Rattle.model.specs.Instance.{cost, owner_of};
ghost use Rattle.model.specs.Sheet.{agents_of, as_marked};
ghost use Rattle.model.specs.Fairness.{total, cost_to};
ghost use Rattle.model.specs.Verdicts.{envies, first_of_pair};
ghost use Rattle.given.specs.Given.{Given};
ghost use Rattle.evenness.specs.Adding.{Adding};
ghost use Rattle.evenness.specs.Off.{Off};

use sheet::valid::Sheet;

// Adds what `count` chores from `first` on cost agent i, each to the sum of its owner. Agent i's marks for them are in one byte, which is read
// once.
fn add_byte(
    sheet: &Sheet,
    owners: &[u8],
    i: usize,
    first: usize,
    count: usize,
    sums: &mut [u32; model::MAX_AGENTS],
)
    requires adding { Adding sheet.now owners.now i first count }
    requires table { Table max_agents (total first (owner_of owners.now) (cost (as_marked sheet.now) i)) sums.old }
    ensures { Table max_agents (total (first + count) (owner_of owners.now) (cost (as_marked sheet.now) i)) sums.new }
{
    let a = sheet.easy_weight();
    let b = sheet.difficult_weight();
    let byte = sheet.row_byte(i, first / 8);
    for j in 0..count {
        let owner = given::owner(owners, first + j);
        sums[owner] += given::mark_cost(a, b, sheet::mark_in(byte, j));
    }
}

// For each agent what its chores cost, or would cost, agent i. Whole bytes first: with a constant count the compiler unrolls the loop over one.
fn add_costs(sheet: &Sheet, owners: &[u8], i: usize, sums: &mut [u32; model::MAX_AGENTS])
    requires given { Given sheet.now owners.now }
    requires i_bound { i < agents_of sheet.now }
    requires sums_value { sums.old ≡ replicate max_agents 0 }
    ensures { Table max_agents (cost_to (as_marked sheet.now) (owner_of owners.now) i) sums.new }
{
    let m = sheet.chores();
    for k in 0..m / 8 {
        add_byte(sheet, owners, i, 8 * k, 8, sums);
    }
    let rest = m % 8;
    if rest > 0 {
        add_byte(sheet, owners, i, m - rest, rest, sums);
    }
}

// What up to `slack` chores of agent i cost it, the costliest first. Each of them costs a, and b - a more where it is difficult; difficult ones go
// first, so no more of these need be counted than go.
fn taken_off(sheet: &Sheet, owners: &[u8], i: usize, slack: u8) -> u32
    requires given { Given sheet.now owners.now }
    requires i_bound { i < agents_of sheet.now }
    ensures { Off sheet.now owners.now slack i result }
{
    let most = slack as u32;
    let mut held = 0;
    let mut difficult = 0;
    for c in 0..sheet.chores() {
        if difficult == most {
            break;
        }
        if given::owner(owners, c) == i {
            held += 1;
            difficult += sheet.mark(i, c) as u32;
        }
    }
    let count = held.min(most);
    let a = sheet.easy_weight();
    let b = sheet.difficult_weight();
    count * a + difficult * (b - a)
}

// The first agent that agent i envies. Not inlined: its sums leave the stack before waste is looked for.
#[inline(never)]
pub fn first_envied(sheet: &Sheet, owners: &[u8], i: usize, slack: u8) -> Option<usize>
    requires given { Given sheet.now owners.now }
    requires i_bound { i < agents_of sheet.now }
    ensures { result ≡ if_below (agents_of sheet.now) (first_below (agents_of sheet.now) (envies slack (as_marked sheet.now) (owner_of owners.now) i)) }
{
    let n = sheet.agents();
    let mut sums = [0; model::MAX_AGENTS];
    add_costs(sheet, owners, i, &mut sums);
    let own = sums[i];
    // Nobody's chores would cost i less: nothing need be taken off.
    if totals::first_below(n, &sums, own).is_none() {
        return None;
    }
    let rest = own - taken_off(sheet, owners, i, slack);
    totals::first_below(n, &sums, rest)
}

// The first agent that envies another.
pub fn first_envier(sheet: &Sheet, owners: &[u8], slack: u8) -> Option<usize>
    requires { Given sheet.now owners.now }
    ensures { result ≡ if_below (agents_of sheet.now) (first_of_pair (agents_of sheet.now) (envies slack (as_marked sheet.now) (owner_of owners.now))) }
{
    (0..sheet.agents()).find(|&i| first_envied(sheet, owners, i, slack).is_some())
}
