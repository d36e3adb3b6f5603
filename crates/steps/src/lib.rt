// One turn of the loop is one step of Algorithm 1.
#![tactic(auto)]

ghost use Rattle.std.specs.Prelude.{length, ◌≡◌};
ghost use Rattle.model.specs.Limits.{scratch_size};
ghost use Rattle.firsts.specs.Traits.{has_trait};
ghost use Rattle.seeking.specs.Looks.{Views};
ghost use Rattle.steps.specs.Turns.{Filling, Tabled, Turning, Turned};
ghost use Rattle.steps.specs.Parts.{Handing, HandedOver, Cutting, CutOff};

use firsts::table::Table;
use firsts::traits::{Chores, View};
use market::cuts::{cut_groups, cut_prices};
use rings::line::reached;
use seeking::{Due, Move, seek, view_of};
use sheet::valid::Sheet;

// What a step did. A move tells its chore, giver and receiver, counted from 0.
#[derive(Clone, Copy)]
pub enum Turn {
    Moved {
        chore: usize,
        giver: usize,
        receiver: usize,
    },
    Passed,
    Cut,
    Ended,
}

// Where a run stands: its counters, stage 0 for 2b or else the group at work in 2a, and the view of its state.
#[derive(Clone, Copy)]
pub struct Stand {
    pub moves: u64,
    pub cuts: u8,
    pub stage: u8,
    pub view: View,
}

// The table of first chores, worked out anew.
pub fn fill_table(
    sheet: &Sheet,
    owners: &[u8],
    prices: &[u32],
    groups: &[u8],
    entitled: &[u8],
    likes: &[u32],
    table: &mut Table,
)
    requires { Filling sheet.now owners.now prices.now groups.now entitled.now likes.now table.old.first table.old.sets }
    ensures { Tabled sheet.now owners.now prices.now groups.now entitled.now likes.now table.new.first table.new.sets }
{
    let n = sheet.agents();
    let chores = Chores {
        prices,
        entitled,
        likes,
        view: view_of(sheet, groups),
    };
    table.fill(n, owners, &chores);
}

// The giver's first chore with the trait goes to the receiver.
fn hand_over(owners: &mut [u8], chores: &Chores, table: &mut Table, due: Move) -> Turn
    requires { Handing owners.old chores.now.prices.now chores.now.entitled.now chores.now.likes.now table.old.first table.old.sets due.giver due.receiver due.sought }
    ensures { HandedOver (has_trait chores.now.prices.now chores.now.entitled.now chores.now.likes.now chores.now.view.free chores.now.view.grouped chores.now.view.mid chores.now.view.top) due.giver due.receiver due.sought owners.old table.old.first table.old.sets result owners.new table.new.first table.new.sets }
{
    let Move {
        giver,
        receiver,
        sought,
    } = due;
    let chore = table.first_of(giver, sought);
    table.hand_on(owners, chores, chore, receiver);
    Turn::Moved {
        chore,
        giver,
        receiver,
    }
}

// The price cut of step 3: whoever stands in line becomes a group.
fn cut(
    sheet: &Sheet,
    owners: &[u8],
    prices: &mut [u32],
    groups: &mut [u8],
    entitled: &mut [u8],
    scratch: &[u8],
    cuts: u8,
)
    requires { Cutting sheet.now owners.now prices.old groups.old entitled.old scratch.now cuts }
    ensures { CutOff sheet.now owners.now prices.old groups.old entitled.old scratch.now cuts prices.new groups.new entitled.new }
{
    let group = reached(sheet.agents(), scratch);
    let a = sheet.easy_weight();
    let b = sheet.difficult_weight();
    cut_prices(owners, prices, entitled, group, a, b);
    cut_groups(groups, group, cuts + 1);
}

// One step: a move of 2a or 2b, on to the next group in 2a, the cut, or the end.
pub fn step(
    sheet: &Sheet,
    owners: &mut [u8],
    prices: &mut [u32],
    groups: &mut [u8],
    entitled: &mut [u8],
    likes: &[u32],
    table: &mut Table,
    scratch: &mut [u8],
    at: Stand,
) -> Turn
    requires turning { Turning sheet.now owners.old prices.old groups.old entitled.old likes.now table.old.first table.old.sets at.cuts at.stage }
    requires views { Views sheet.now groups.old at.view.free at.view.grouped at.view.low at.view.mid at.view.top × (length scratch.old ≡ scratch_size) }
    ensures { Turned sheet.now owners.old prices.old groups.old entitled.old likes.now at.cuts at.stage
        result owners.new prices.new groups.new entitled.new table.new.first table.new.sets }
{
    let view = at.view;
    match seek(
        sheet,
        owners,
        prices,
        groups,
        &table.sets,
        view,
        scratch,
        at.stage,
    ) {
        Due::Hand(due) => {
            let chores = Chores {
                prices,
                entitled,
                likes,
                view,
            };
            hand_over(owners, &chores, table, due)
        }
        Due::Pass => Turn::Passed,
        Due::Cut => {
            cut(sheet, owners, prices, groups, entitled, scratch, at.cuts);
            fill_table(sheet, owners, prices, groups, entitled, likes, table);
            Turn::Cut
        }
        Due::End => Turn::Ended,
    }
}
