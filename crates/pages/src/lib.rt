// A book printed sheet by sheet: what the programs have in common, whatever they print of a sheet.
#![tactic(auto)]

ghost use Rattle.std.specs.Prelude.{◌≤◌, ◌≡◌, length, IfOk, OnOk};
ghost use Rattle.std.specs.Io.KnownBytes.{Appends};
ghost use Rattle.contents.specs.Fits.{SheetInBook};
ghost use Rattle.pages.specs.Printer.{Printer, Unbroken, to_print, last_text, book_text};
ghost use Rattle.pages.specs.Printing.{last_most, Shows, SheetShown};

use model::{Refusal, ShareOut, Tally};
use std::io;
use std::io::Write;
use text::lines;

// What a program prints of a sheet.
pub trait SheetPrinter {
    ghost printer: { Printer };

    // Sheet j, counted from 0 and numbered from 1. Answers what its share-out did.
    fn sheet_text<W: Write>(
        book: &[u8],
        j: usize,
        to: &mut W,
    ) -> io::Result<Result<ShareOut, Refusal>>
        requires { SheetInBook book.now j }
        ensures { IfOk result (SheetShown printer book.now j (W.contents to.old) (W.contents to.new)) };

    ghost unbroken: { Unbroken printer };
}

// How many sheets there are to print: none of a refused book.
pub fn sheets(book: &[u8]) -> usize
    ensures { result ≡ to_print book.now }
{
    match contents::admit_book(book) {
        Ok(()) => contents::count(book),
        Err(_) => 0,
    }
}

// What is printed last, after the sheets, or of a refused book alone. In a lent buffer it can't fail.
pub fn last_text(book: &[u8], total: Tally, out: &mut [u8]) -> usize
    requires { last_most ≤ length out.old }
    ensures { Shows (last_text book.now total.moves total.cuts) out.new result }
{
    match contents::admit_book(book) {
        Ok(()) => lines::total_line(total.moves, total.cuts, out, 0),
        Err(refusal) => lines::book_refused_line(u8::from(refusal) as u64, out, 0),
    }
}

// To a writer it can.
fn write_last_text<W: Write>(book: &[u8], total: Tally, to: &mut W) -> io::Result<()>
    ensures { OnOk result (Appends (W.contents to.old) (W.contents to.new) (last_text book.now total.moves total.cuts)) }
{
    match contents::admit_book(book) {
        Ok(()) => lines::write_total_line(total.moves, total.cuts, to),
        Err(refusal) => lines::write_book_refused_line(refusal, to),
    }
}

// The sheets, each as soon as its text is made, and the line after them.
pub fn print_book<P: SheetPrinter, W: Write>(book: &[u8], to: &mut W) -> io::Result<()>
    ensures { OnOk result (Appends (W.contents to.old) (W.contents to.new) (book_text P.printer book.now)) }
{
    let mut total = tally::none();
    for j in 0..sheets(book) {
        let answer = P::sheet_text(book, j, to)?;
        to.flush()?;
        total = tally::tallied(total, answer);
    }
    write_last_text(book, total, to)?;
    to.flush()
}
