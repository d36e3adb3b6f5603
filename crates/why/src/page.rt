// The text of a sheet of a book.
ghost use Rattle.why.specs.Told.{printer, unbroken};

use crate::told;
use model::{Refusal, ShareOut};
use pages::SheetPrinter;
use std::io;
use std::io::Write;

// Room for 20,000 moves.
const RECORD_SIZE: usize = 120000;

pub struct Why;

impl SheetPrinter for Why {
    ghost printer = { printer };

    fn sheet_text<W: Write>(
        book: &[u8],
        j: usize,
        to: &mut W,
    ) -> io::Result<Result<ShareOut, Refusal>> {
        let sheet = contents::sheet_at(book, j);
        let mut owners = [0; model::MAX_CHORES];
        let mut prices = [0; model::MAX_CHORES];
        let mut scratch = [0; model::SCRATCH_SIZE];
        let mut bytes = [0; RECORD_SIZE];
        let answer = recorded::allocate_recorded(
            sheet,
            &mut owners,
            &mut prices,
            &mut scratch,
            &mut bytes,
        );
        told::answer_text(sheet, j as u64 + 1, answer, &owners, &prices, &bytes, to)?;
        Ok(answer)
    }

    ghost unbroken = { unbroken };
}
