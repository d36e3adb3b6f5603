// The text of a sheet of a book.
ghost use Rattle.std.specs.Prelude.{OnOk};
ghost use Rattle.std.specs.Io.KnownBytes.{Appends};
ghost use Rattle.pages.specs.Printer.{text_of};
ghost use Rattle.pages.specs.Answered.{Answered};
ghost use Rattle.shares.specs.Page.{shared_lines};
ghost use Rattle.shares.specs.Printing.{printer, unbroken};

use model::{Refusal, ShareOut};
use pages::SheetPrinter;
use std::io;
use std::io::Write;
use text::lines;

// The three lines of an accepted sheet.
fn shared_lines<W: Write>(
    number: u64,
    out: ShareOut,
    owners: &[u8],
    prices: &[u32],
    to: &mut W,
) -> io::Result<()>
    ensures { OnOk result (Appends (W.contents to.old) (W.contents to.new) (shared_lines number out.moves out.cuts owners.now prices.now)) }
{
    lines::write_sheet_line(number, out.moves, out.cuts as u64, to)?;
    lines::write_owners_line(owners, to)?;
    lines::write_prices_line(prices, to)
}

// An accepted sheet's entries stand first in the lists.
fn answer_text<W: Write>(
    sheet: &[u8],
    number: u64,
    answer: Result<ShareOut, Refusal>,
    owners: &[u8],
    prices: &[u32],
    to: &mut W,
) -> io::Result<()>
    requires { Answered printer sheet.now owners.now prices.now answer }
    ensures { OnOk result (Appends (W.contents to.old) (W.contents to.new) (text_of printer sheet.now number)) }
{
    match answer {
        Ok(out) => {
            let m = sheet::chores(sheet);
            shared_lines(number, out, &owners[..m], &prices[..m], to)
        }
        Err(refusal) => lines::write_refused_line(number, refusal, to),
    }
}

pub struct Shares;

impl SheetPrinter for Shares {
    ghost printer = { printer };

    fn sheet_text<W: Write>(
        book: &[u8],
        j: usize,
        to: &mut W,
    ) -> io::Result<Result<ShareOut, Refusal>> {
        let sheet = contents::sheet_at(book, j);
        let mut owners = [0; model::MAX_CHORES];
        let mut prices = [0; model::MAX_CHORES];
        let mut scratch = [0; model::SCRATCH_SIZE];
        let answer = allocation::allocate(sheet, &mut owners, &mut prices, &mut scratch);
        answer_text(sheet, j as u64 + 1, answer, &owners, &prices, to)?;
        Ok(answer)
    }

    ghost unbroken = { unbroken };
}
