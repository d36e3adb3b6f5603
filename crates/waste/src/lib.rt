// Waste: whether another list dominates, and one that does. `connected` has the test, `walk` makes the list.
#![tactic(auto)]

mod connected;
pub mod walk;

ghost use Rattle.std.specs.Prelude.{◌≤◌, length};
ghost use Rattle.model.specs.Sheet.{chores_of};
ghost use Rattle.given.specs.Given.{Given};
ghost use Rattle.waste.specs.Shown.{WasteShown};

use sheet::valid::Sheet;

// Whether another list dominates, and if so, one that does, over the first entries, one for each chore.
pub fn show_waste(sheet: &Sheet, owners: &[u8], dominating: &mut [u8]) -> bool
    requires given { Given sheet.now owners.now }
    requires room { chores_of sheet.now ≤ length dominating.old }
    ensures { WasteShown sheet.now owners.now dominating.old dominating.new result }
{
    let distances = connected::find_distances(sheet, owners);
    let Some(c) = connected::first_wasted(sheet, owners, &distances) else {
        return false;
    };
    let j = connected::first_taker(sheet, &distances, connected::NO_DISTANCE, c).unwrap();
    walk::write_dominating(sheet, owners, &distances, c, j, dominating);
    true
}
