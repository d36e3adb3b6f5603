// The share-out: Algorithm 1 on a sheet.
#![tactic(auto)]

ghost use Rattle.std.specs.Prelude.{◌≤◌, ◌≡◌, length, IfOk};
ghost use Rattle.model.specs.Limits.{max_chores, scratch_size};
ghost use Rattle.model.specs.Sheet.{chores_of};
ghost use Rattle.model.specs.RefusalNumbers.{number_of};
ghost use Rattle.model.specs.Refusals.{allocate_refusal};
ghost use Rattle.model.specs.Promises.{Allocated};
ghost use Rattle.allocation.specs.Shared.{Sharing, Working, Long, Shared, SharedWith};

use model::{Refusal, ShareOut};
use opening::open;
use runs::run;
use sheet::valid::Sheet;
use steps::Stand;
use totals::clear;

// So many chores are few.
const FEW: usize = 200;

// The opening and the run, with working lists of the lengths that the sheet asks for.
fn share_with(
    sheet: &Sheet,
    owners: &mut [u8],
    prices: &mut [u32],
    groups: &mut [u8],
    entitled: &mut [u8],
    likes: &mut [u32],
    scratch: &mut [u8],
    record: &mut [u8],
) -> Stand
    requires sharing { Sharing sheet.now owners.old prices.old × Working sheet.now groups.old entitled.old likes.old }
    requires scratch_len { length scratch.old ≡ scratch_size }
    ensures { Shared sheet.now owners.new prices.new «record».old «record».new result.moves result.cuts }
{
    open(sheet, owners, prices, likes);
    run(
        sheet, owners, prices, groups, entitled, likes, scratch, record,
    )
}

// With lists that are long enough: what is behind the entries that the sheet asks for stays as it is.
fn share_in(
    sheet: &Sheet,
    owners: &mut [u8],
    prices: &mut [u32],
    entitled: &mut [u8],
    likes: &mut [u32],
    scratch: &mut [u8],
    record: &mut [u8],
) -> Stand
    requires sharing { Sharing sheet.now owners.old prices.old × Long sheet.now entitled.old likes.old }
    requires scratch_len { length scratch.old ≡ scratch_size }
    ensures { Shared sheet.now owners.new prices.new «record».old «record».new result.moves result.cuts }
{
    let n = sheet.agents();
    let m = sheet.chores();
    let mut groups = [0; model::MAX_AGENTS];
    share_with(
        sheet,
        owners,
        prices,
        &mut groups[0..n],
        &mut entitled[0..m],
        &mut likes[0..m],
        scratch,
        record,
    )
}

// With lists for so many chores.
fn share_in_room<const CHORES: usize>(
    sheet: &Sheet,
    owners: &mut [u8],
    prices: &mut [u32],
    scratch: &mut [u8],
    record: &mut [u8],
) -> Stand
    requires sharing { Sharing sheet.now owners.old prices.old }
    requires room { (chores_of sheet.now ≤ CHORES) × (CHORES ≤ max_chores) }
    requires scratch_len { length scratch.old ≡ scratch_size }
    ensures { Shared sheet.now owners.new prices.new «record».old «record».new result.moves result.cuts }
{
    let mut entitled = [0; CHORES];
    let mut likes = [0; CHORES];
    share_in(
        sheet,
        owners,
        prices,
        &mut entitled,
        &mut likes,
        scratch,
        record,
    )
}

// The share-out of a sheet that breaks no rule, into lists of one entry for each chore. With few chores it is over in the time that it takes to
// clear lists for many.
pub fn share(
    sheet: &Sheet,
    owners: &mut [u8],
    prices: &mut [u32],
    scratch: &mut [u8],
    record: &mut [u8],
) -> Stand
    requires sharing { Sharing sheet.now owners.old prices.old }
    requires scratch_len { length scratch.old ≡ scratch_size }
    ensures { Shared sheet.now owners.new prices.new «record».old «record».new result.moves result.cuts }
{
    if sheet.chores() <= FEW {
        share_in_room::<FEW>(sheet, owners, prices, scratch, record)
    } else {
        share_in_room::<{ model::MAX_CHORES }>(sheet, owners, prices, scratch, record)
    }
}

// The sheet, or what its share-out is turned down for.
pub fn admit(
    bytes: &[u8],
    owners: usize,
    prices: usize,
    scratch: usize,
) -> Result<Sheet<'_>, Refusal>
    ensures number { number_of result ≡ allocate_refusal bytes.now owners prices scratch }
    ensures same { IfOk result (λ sheet. sheet ≡ bytes.now) }
{
    let sheet = Sheet::read(bytes)?;
    let m = sheet.chores();
    sheet::admit_lent(m, owners)?;
    sheet::admit_lent(m, prices)?;
    sheet::admit_lent(model::SCRATCH_SIZE, scratch)?;
    Ok(sheet)
}

// The share-out of what is not turned down, with or without a record of its moves.
pub fn share_out(
    sheet: &Sheet,
    owners: &mut [u8],
    prices: &mut [u32],
    scratch: &mut [u8],
    record: &mut [u8],
) -> ShareOut
    requires { allocate_refusal sheet.now (length owners.old) (length prices.old) (length scratch.old) ≡ 0 }
    ensures { SharedWith sheet.now owners.old prices.old scratch.old «record».old owners.new prices.new scratch.new «record».new result }
{
    let m = sheet.chores();
    let counts = share(
        sheet,
        &mut owners[0..m],
        &mut prices[0..m],
        &mut scratch[0..model::SCRATCH_SIZE],
        record,
    );
    clear(scratch);
    ShareOut {
        moves: counts.moves,
        cuts: counts.cuts,
    }
}

pub fn allocate(
    sheet: &[u8],
    owners: &mut [u8],
    prices: &mut [u32],
    scratch: &mut [u8],
) -> Result<ShareOut, Refusal>
    ensures { Allocated sheet.now owners.old prices.old scratch.old owners.new prices.new scratch.new result }
{
    let sheet = admit(sheet, owners.len(), prices.len(), scratch.len())?;
    Ok(share_out(&sheet, owners, prices, scratch, &mut []))
}
