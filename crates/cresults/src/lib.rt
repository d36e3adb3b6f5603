// The results of a book for C, list by list.
#![tactic(auto)]

ghost use Rattle.cresults.specs.Parts.{FirstsFit, ResultsTold};

use model::BookResult;

// A refused sheet tells its number alone, a sheet that the book does not have nothing.
pub fn tell(
    book: &BookResult,
    refusals: &mut [u8; model::MAX_SHEETS],
    moves: &mut [u64; model::MAX_SHEETS],
    cuts: &mut [u8; model::MAX_SHEETS],
    firsts: &mut [u32; model::MAX_SHEETS],
    tally: &mut [u64; 2],
)
    requires { FirstsFit book.now }
    ensures { ResultsTold book.now refusals.old moves.old cuts.old firsts.old refusals.new moves.new cuts.new firsts.new tally.new }
{
    for (j, &sheet) in book.sheets.iter().enumerate() {
        match sheet {
            None => {}
            Some(Err(refusal)) => refusals[j] = u8::from(refusal),
            Some(Ok(share)) => {
                refusals[j] = 0;
                moves[j] = share.moves;
                cuts[j] = share.cuts;
                firsts[j] = share.first as u32;
            }
        }
    }
    *tally = [book.tally.moves, book.tally.cuts];
}
