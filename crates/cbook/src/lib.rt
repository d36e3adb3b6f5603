// The share-out of a whole book for C: the results in lent memory.
#![tactic(auto)]

ghost use Rattle.cmodel.specs.Promises.{BookAllocatedInC};

// The refusal number, or 0: then the entries of the book's sheets are written in each list of results. The tally is moves and cuts.
pub fn allocate_book(
    book: &[u8],
    owners: &mut [u8],
    prices: &mut [u8],
    scratch: &mut [u8],
    refusals: &mut [u8; model::MAX_SHEETS],
    moves: &mut [u64; model::MAX_SHEETS],
    cuts: &mut [u8; model::MAX_SHEETS],
    firsts: &mut [u32; model::MAX_SHEETS],
    tally: &mut [u64; 2],
) -> u8
    ensures { BookAllocatedInC book.now owners.old prices.old scratch.old owners.new prices.new scratch.new refusals.old moves.old cuts.old firsts.old tally.old refusals.new moves.new cuts.new firsts.new tally.new result }
{
    match book::allocate_book(book, owners, prices, scratch) {
        Ok(shared) => {
            cresults::tell(&shared, refusals, moves, cuts, firsts, tally);
            0
        }
        Err(refusal) => u8::from(refusal),
    }
}
