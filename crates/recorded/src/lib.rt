// The share-out with a record of its moves.
#![tactic(auto)]

ghost use Rattle.std.specs.Prelude.{◌≡◌, length, IfOk};
ghost use Rattle.model.specs.Sheet.{agents_of, chores_of};
ghost use Rattle.model.specs.MostMoves.{most_moves};
ghost use Rattle.model.specs.RefusalNumbers.{number_of};
ghost use Rattle.model.specs.Refusals.{recorded_refusal};
ghost use Rattle.model.specs.Promises.{Recorded};
ghost use Rattle.recorded.specs.Moves.{moves_for};

use model::{Refusal, ShareOut};
use sheet::valid::Sheet;

// How many moves a share-out takes, by a run on lists of its own: nothing lent may be written before the record is known to have room. Not inlined:
// its lists leave the stack before the share-out that records makes its own.
#[inline(never)]
fn count_moves(sheet: &Sheet) -> u64
    ensures { result ≡ length (moves_for sheet.now) }
{
    let m = sheet.chores();
    let mut owners = [0; model::MAX_CHORES];
    let mut prices = [0; model::MAX_CHORES];
    let mut scratch = [0; model::SCRATCH_SIZE];
    let counts = allocation::share(
        sheet,
        &mut owners[..m],
        &mut prices[..m],
        &mut scratch,
        &mut [],
    );
    counts.moves
}

// No run takes more.
#[tactic(auto, unfolding(model::specs::MostMoves::most_moves, model::specs::MostMoves::round_moves))]
fn most_moves(sheet: &Sheet) -> u64
    ensures { result ≡ most_moves (agents_of sheet.now) (chores_of sheet.now) }
{
    let n = sheet.agents();
    let m = sheet.chores();
    (n * ((n - 1) * m)) as u64
}

// The sheet, or what its share-out with a record is turned down for. Where there is room for the most moves, none are counted.
fn admit(
    sheet: &[u8],
    owners: usize,
    prices: usize,
    scratch: usize,
    bytes: usize,
) -> Result<Sheet<'_>, Refusal>
    ensures number { number_of result ≡ recorded_refusal sheet.now owners prices scratch (length (moves_for sheet.now)) bytes }
    ensures same { IfOk result (λ read. read ≡ sheet.now) }
{
    let sheet = allocation::admit(sheet, owners, prices, scratch)?;
    if records::admit_moves(most_moves(&sheet), bytes).is_ok() {
        return Ok(sheet);
    }
    records::admit_moves(count_moves(&sheet), bytes)?;
    Ok(sheet)
}

pub fn allocate_recorded(
    sheet: &[u8],
    owners: &mut [u8],
    prices: &mut [u32],
    scratch: &mut [u8],
    record: &mut [u8],
) -> Result<ShareOut, Refusal>
    ensures { Recorded sheet.now owners.old prices.old scratch.old «record».old owners.new prices.new scratch.new «record».new result }
{
    let sheet = admit(
        sheet,
        owners.len(),
        prices.len(),
        scratch.len(),
        record.len(),
    )?;
    Ok(allocation::share_out(&sheet, owners, prices, scratch, record))
}
