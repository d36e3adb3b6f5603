// The list check: whether a list is even up to a slack, and whether another list dominates it. The tests are in `evenness` and `waste`.
#![tactic(auto)]

ghost use Rattle.std.specs.Prelude.{◌≡◌, IfOk};
ghost use Rattle.model.specs.RefusalNumbers.{number_of};
ghost use Rattle.model.specs.Refusals.{list_refusal};
ghost use Rattle.model.specs.Promises.{ListChecked};

use model::{ListVerdict, Refusal};
use sheet::valid::Sheet;

// The sheet, or what the list check is turned down for.
fn admit<'a>(bytes: &'a [u8], owners: &[u8], slack: u8, lent: usize) -> Result<Sheet<'a>, Refusal>
    ensures number { number_of result ≡ list_refusal bytes.now owners.now slack lent }
    ensures same { IfOk result (λ sheet. sheet ≡ bytes.now) }
{
    let sheet = given::read_given(bytes, owners)?;
    sheet::admit_lent(sheet.chores(), lent)?;
    if slack > model::MAX_SLACK {
        return Err(Refusal::Slack);
    }
    Ok(sheet)
}

// Unfair agents come first: waste is looked for in an even list only. The lent list is written with `Wasteful` alone.
pub fn check_list(
    sheet: &[u8],
    owners: &[u8],
    slack: u8,
    dominating: &mut [u8],
) -> Result<ListVerdict, Refusal>
    ensures { ListChecked sheet.now owners.now slack dominating.old dominating.new result }
{
    let sheet = admit(sheet, owners, slack, dominating.len())?;
    if let Some(i) = evenness::first_envier(&sheet, owners, slack) {
        let j = evenness::first_envied(&sheet, owners, i, slack).unwrap();
        return Ok(ListVerdict::Unfair((i + 1) as u8, (j + 1) as u8));
    }
    if waste::show_waste(&sheet, owners, dominating) {
        return Ok(ListVerdict::Wasteful);
    }
    Ok(ListVerdict::Holds)
}
