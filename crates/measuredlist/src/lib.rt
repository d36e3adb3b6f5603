// Lists that respect everyone's own measure and are not wasteful: a list within the measures, improved until no other dominates it.
#![tactic(auto)]

ghost use Rattle.std.specs.Prelude.{◌≡◌, length};
ghost use Rattle.finite.specs.Lists.{Picks};
ghost use Rattle.model.specs.Sheet.{agents_of, chores_of};
ghost use Rattle.model.specs.RefusalNumbers.{number_of};
ghost use Rattle.model.specs.Promises.{MeasuredList};
ghost use Rattle.placing.specs.Sheets.{MeasuredSheet};
ghost use Rattle.measuredlist.specs.Improving.{Improved, Respected};

use model::Refusal;
use sheet::valid::Sheet;

// While another list dominates, it takes the place of the one at hand. Each costs less in total than the one before, so this ends.
fn improve(sheet: &Sheet, owners: &mut [u8])
    requires { Picks (agents_of sheet.now) (chores_of sheet.now) owners.old }
    ensures { Improved sheet.now owners.old owners.new }
{
    let m = sheet.chores();
    let mut spare = [0; model::MAX_CHORES];
    while waste::show_waste(sheet, owners, &mut spare) {
        owners.copy_from_slice(&spare[..m]);
    }
}

// A list for all chores, whatever stood in it: first within the measures, then improved.
fn respect(sheet: &Sheet, measures: &[u32; model::MAX_AGENTS], owners: &mut [u8])
    requires measured_sheet { MeasuredSheet sheet.now measures.now }
    requires owners_len { length owners.old ≡ chores_of sheet.now }
    ensures { Respected sheet.now owners.new }
{
    placing::list_within(sheet, measures, owners);
    improve(sheet, owners);
}

// Which list is written is free: nobody's chores cost more than its measure, and no list dominates it.
pub fn measured_list(sheet: &[u8], owners: &mut [u8]) -> Result<(), Refusal>
    ensures { MeasuredList sheet.now owners.old owners.new (number_of result) }
{
    let sheet = measures::admit(sheet)?;
    let m = sheet.chores();
    sheet::admit_lent(m, owners.len())?;
    let mut numbers = [0; model::MAX_AGENTS];
    measures::write_shares(&sheet, &mut numbers);
    respect(&sheet, &numbers, &mut owners[..m]);
    Ok(())
}
