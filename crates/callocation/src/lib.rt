// The share-out for C, without a record of its moves and with one: prices as bytes, moves and cuts in lent memory.
#![tactic(auto)]

ghost use Rattle.std.specs.Prelude.{◌/◌, ◌≤◌, min, ◌≡◌, length};
ghost use Rattle.model.specs.Limits.{max_chores};
ghost use Rattle.cmodel.specs.Promises.{AllocatedInC, RecordedInC};
ghost use Rattle.callocation.specs.Telling.{Tellable, ToldOut};

use model::{Refusal, ShareOut};

// An answer, and the prices that it left in `numbers`, as C gets them: the refusal number or 0. What is lent is written only where nothing was
// refused.
fn told_out(
    sheet: &[u8],
    answer: Result<ShareOut, Refusal>,
    numbers: &[u32],
    prices: &mut [u8],
    moves: &mut u64,
    cuts: &mut u8,
) -> u8
    requires { Tellable sheet.now answer numbers.now prices.old }
    ensures { ToldOut sheet.now answer numbers.now prices.old prices.new moves.old cuts.old moves.new cuts.new result }
{
    match answer {
        Ok(out) => {
            *moves = out.moves;
            *cuts = out.cuts;
            pricebytes::write_prices(numbers, sheet::chores(sheet), prices);
            0
        }
        Err(refusal) => u8::from(refusal),
    }
}

// As many numbers are lent as there are prices, but no sheet has more than MAX_CHORES chores.
fn lent_for(bytes: usize) -> usize
    ensures { result ≡ min (bytes / 4) max_chores }
{
    pricebytes::entries(bytes, model::MAX_CHORES)
}

// A list for so many prices is cleared in less time than one for MAX_CHORES.
const FEW: usize = 200;

// `lent` is for the prices as numbers.
fn allocate_with(
    sheet: &[u8],
    owners: &mut [u8],
    prices: &mut [u8],
    scratch: &mut [u8],
    lent: &mut [u32],
    moves: &mut u64,
    cuts: &mut u8,
) -> u8
    requires { min (length prices.old / 4) max_chores ≤ length lent.old }
    ensures { AllocatedInC sheet.now owners.old prices.old scratch.old owners.new prices.new scratch.new moves.old cuts.old moves.new cuts.new result }
{
    let entries = lent_for(prices.len());
    let answer = allocation::allocate(sheet, owners, &mut lent[..entries], scratch);
    told_out(sheet, answer, lent, prices, moves, cuts)
}

// The refusal number, or 0: then owners, prices, moves and cuts are written and the scratch is zeros.
pub fn allocate(
    sheet: &[u8],
    owners: &mut [u8],
    prices: &mut [u8],
    scratch: &mut [u8],
    moves: &mut u64,
    cuts: &mut u8,
) -> u8
    ensures { AllocatedInC sheet.now owners.old prices.old scratch.old owners.new prices.new scratch.new moves.old cuts.old moves.new cuts.new result }
{
    if lent_for(prices.len()) <= FEW {
        let mut lent = [0; FEW];
        return allocate_with(sheet, owners, prices, scratch, &mut lent, moves, cuts);
    }
    let mut lent = [0; model::MAX_CHORES];
    allocate_with(sheet, owners, prices, scratch, &mut lent, moves, cuts)
}

// With a record.
fn allocate_recorded_with(
    sheet: &[u8],
    owners: &mut [u8],
    prices: &mut [u8],
    scratch: &mut [u8],
    record: &mut [u8],
    lent: &mut [u32],
    moves: &mut u64,
    cuts: &mut u8,
) -> u8
    requires { length lent.old ≡ max_chores }
    ensures { RecordedInC sheet.now owners.old prices.old scratch.old «record».old owners.new prices.new scratch.new «record».new moves.old cuts.old moves.new cuts.new result }
{
    let entries = lent_for(prices.len());
    let answer = recorded::allocate_recorded(sheet, owners, &mut lent[..entries], scratch, record);
    told_out(sheet, answer, lent, prices, moves, cuts)
}

// As `allocate`, and the moves stand at the start of the record.
pub fn allocate_recorded(
    sheet: &[u8],
    owners: &mut [u8],
    prices: &mut [u8],
    scratch: &mut [u8],
    record: &mut [u8],
    moves: &mut u64,
    cuts: &mut u8,
) -> u8
    ensures { RecordedInC sheet.now owners.old prices.old scratch.old «record».old owners.new prices.new scratch.new «record».new moves.old cuts.old moves.new cuts.new result }
{
    let mut lent = [0; model::MAX_CHORES];
    allocate_recorded_with(
        sheet, owners, prices, scratch, record, &mut lent, moves, cuts,
    )
}
