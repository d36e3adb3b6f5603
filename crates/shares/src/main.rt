// Reads one book from standard input, and prints the share-out of its sheets; or prints what its one argument asks for.
#![tactic(auto)]

mod page;

ghost use Rattle.std.specs.Prelude.{List, ℕ, OnOk};
ghost use Rattle.program.specs.Buffered.{HandsOn};
ghost use Rattle.shares.specs.Page.{Printed};

use page::Shares;
use program::arguments;
use program::buffered::Buffered;
use std::io;
use std::io::Write;

const USAGE: &[u8] =
    b"usage: shares < BOOK\nShares out every sheet of the book on standard input. See shares(1).\n";

// What is printed is handed on to the writer, whole.
fn print_book<W: Write>(book: &[u8], to: &mut Buffered<W>) -> io::Result<()>
    ensures { OnOk result ((text : List ℕ) × Printed book.now text × HandsOn W.contents to.old to.new text) }
{
    pages::print_book::<Shares, Buffered<W>>(book, to)?;
    to.flush()
}

fn main(rt: HostRuntime) {
    let mut out = rt.stdout();
    let mut errors = rt.stderr();
    if arguments::to_run(
        &rt,
        "shares",
        USAGE,
        b"shares 6.2.15\n",
        &mut out,
        &mut errors,
    ) {
        let mut out = Buffered::new(out);
        program::run("shares", print_book, &mut rt.stdin(), &mut out, &mut errors);
    }
}
