// The share-out of a whole book: sheet after sheet, each into the next free stretch of the long lists. Prices are bytes, as C
// lends them; `numbers` has those of the sheet at work.
#![tactic(auto)]

mod refusal;

ghost use Rattle.std.specs.Prelude.{Some, ◌≡◌};
ghost use Rattle.model.specs.Replies.{sheet_reply};
ghost use Rattle.cmodel.specs.Promises.{BookInBytes};
ghost use Rattle.book.specs.Said.{placed};
ghost use Rattle.book.specs.Steps.{Answered, Taken, Room, RestShared, Fine, SharedInBytes};

use model::{BookResult, Refusal, ShareOut, SheetShare};

// What the book's results say of a sheet whose entries would start at `first`.
fn entry(answer: Result<ShareOut, Refusal>, first: usize) -> Result<SheetShare, Refusal>
    ensures { sheet_reply (Some result) ≡ placed first answer }
{
    answer.map(|out| SheetShare {
        moves: out.moves,
        cuts: out.cuts,
        first,
    })
}

// How many entries a sheet takes. A refused one may lack the bytes that say its chores.
fn entries(sheet: &[u8], answer: Result<ShareOut, Refusal>) -> usize
    requires { Answered sheet.now answer }
    ensures { Taken sheet.now answer result }
{
    match answer {
        Ok(_) => sheet::chores(sheet),
        Err(_) => 0,
    }
}

// The share-out of one sheet: the free rest of the owner list is lent to it, and its prices are written over the free rest of their bytes.
fn share_rest(
    sheet: &[u8],
    first: usize,
    owners: &mut [u8],
    prices: &mut [u8],
    scratch: &mut [u8],
    numbers: &mut [u32],
) -> Result<ShareOut, Refusal>
    requires { Room first owners.old prices.old scratch.old numbers.old }
    ensures { RestShared sheet.now first owners.old prices.old scratch.old owners.new prices.new scratch.new result }
{
    let answer = allocation::allocate(sheet, &mut owners[first..], numbers, scratch);
    let m = entries(sheet, answer);
    let start = pricebytes::SIZE * first;
    pricebytes::write_prices(numbers, m, &mut prices[start..]);
    answer
}

// The sheets one after the other; `first` is the first entry that is free.
fn share_sheets(
    book: &[u8],
    owners: &mut [u8],
    prices: &mut [u8],
    scratch: &mut [u8],
    numbers: &mut [u32],
) -> BookResult
    requires { Fine book.now owners.old prices.old scratch.old numbers.old }
    ensures { SharedInBytes book.now owners.old prices.old scratch.old owners.new prices.new scratch.new result }
{
    let k = contents::count(book);
    let mut sheets = [None; model::MAX_SHEETS];
    let mut total = tally::none();
    let mut first = 0;
    for j in 0..k {
        let sheet = contents::sheet_at(book, j);
        let answer = share_rest(sheet, first, owners, prices, scratch, numbers);
        sheets[j] = Some(entry(answer, first));
        total = tally::tallied(total, answer);
        first += entries(sheet, answer);
    }
    BookResult {
        count: k as u8,
        sheets,
        tally: total,
    }
}

// The scratch is cleared first, since no share-out clears it where each sheet is refused.
pub fn allocate_book(
    book: &[u8],
    owners: &mut [u8],
    prices: &mut [u8],
    scratch: &mut [u8],
) -> Result<BookResult, Refusal>
    ensures { BookInBytes book.now owners.old prices.old scratch.old owners.new prices.new scratch.new result }
{
    let places = prices.len() / pricebytes::SIZE;
    refusal::admit(book, owners.len(), places, scratch.len())?;
    scratch.fill(0);
    let mut numbers = [0; model::MAX_CHORES];
    Ok(share_sheets(book, owners, prices, scratch, &mut numbers))
}
