// What the two checks are given: a list of owners, judged against its sheet; whose a chore is, what a mark costs, and which chore of an agent is
// the first difficult one.
#![tactic(auto)]

ghost use Rattle.std.specs.Prelude.{◌≡◌, ◌<◌, cond, eqb, IfOk};
ghost use Rattle.finite.specs.Search.{first_below, if_below};
ghost use Rattle.model.specs.Instance.{owner_of};
ghost use Rattle.model.specs.Sheet.{agents_of, chores_of};
ghost use Rattle.model.specs.RefusalNumbers.{number_of};
ghost use Rattle.model.specs.Refusals.{owners_refusal};
ghost use Rattle.sheet.specs.Readers.{Read};
ghost use Rattle.given.specs.Given.{given_refusal, Given, Owned, Marked};
ghost use Rattle.given.specs.Burdens.{burdens};

use model::Refusal;
use sheet::valid::Sheet;

// What a list of owners is turned down for.
fn admit_owners(sheet: &Sheet, owners: &[u8]) -> Result<(), Refusal>
    ensures { number_of result ≡ owners_refusal (agents_of sheet.now) (chores_of sheet.now) owners.now }
{
    if owners.len() != sheet.chores() {
        return Err(Refusal::OwnerCount);
    }
    let n = sheet.agents();
    if !owners
        .iter()
        .all(|&owner| !sheet::out_of_range(owner as usize, n))
    {
        return Err(Refusal::Owner);
    }
    Ok(())
}

// The sheet, or what it is turned down for with its list of owners. The list is read only where its sheet breaks no rule.
pub fn read_given<'a>(bytes: &'a [u8], owners: &[u8]) -> Result<Sheet<'a>, Refusal>
    ensures number { number_of result ≡ given_refusal bytes.now owners.now }
    ensures same { IfOk result (λ sheet. sheet ≡ bytes.now) }
{
    let sheet = Sheet::read(bytes)?;
    admit_owners(&sheet, owners)?;
    Ok(sheet)
}

// The agent that owns a chore. Agents are counted from 0 here, and from 1 in a list of owners.
pub fn owner(owners: &[u8], c: usize) -> usize
    requires { Owned owners.now c }
    ensures { Read (owner_of owners.now c) 256 result }
{
    owners[c] as usize - 1
}

// What either mark costs. Document 02, request 3: "by arithmetic without a branch: a plus the product of (b − a) and" the mark, which is 0 for
// an easy one and 1 for a difficult one.
pub fn mark_cost(a: u32, b: u32, mark: u8) -> u32
    requires { Marked a b mark }
    ensures { result ≡ cond (eqb mark 1) b a }
{
    a + (b - a) * mark as u32
}

// The first chore of agent i that is difficult for it.
pub fn first_burden(sheet: &Sheet, owners: &[u8], i: usize) -> Option<usize>
    requires given { Given sheet.now owners.now }
    requires i_bound { i < agents_of sheet.now }
    ensures { result ≡ if_below (chores_of sheet.now) (first_below (chores_of sheet.now) (burdens sheet.now owners.now i)) }
{
    (0..sheet.chores()).find(|&c| owner(owners, c) == i && !sheet.is_easy(i, c))
}
