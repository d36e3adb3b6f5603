// Reads one book from standard input, and prints the share-out of its sheets with every move; or prints what its one argument asks for.
#![tactic(auto)]

mod page;
mod told;

ghost use Rattle.std.specs.Prelude.{List, ℕ, OnOk};
ghost use Rattle.program.specs.Buffered.{HandsOn};
ghost use Rattle.why.specs.Page.{Printed};

use page::Why;
use program::arguments;
use program::buffered::Buffered;
use std::io;
use std::io::Write;

const USAGE: &[u8] =
    b"usage: why < BOOK\nShows every move of the share-outs of the book on standard input. See why(1).\n";

// What is printed is handed on to the writer, whole.
fn print_book<W: Write>(book: &[u8], to: &mut Buffered<W>) -> io::Result<()>
    ensures { OnOk result ((text : List ℕ) × Printed book.now text × HandsOn W.contents to.old to.new text) }
{
    pages::print_book::<Why, Buffered<W>>(book, to)?;
    to.flush()
}

fn main(rt: HostRuntime) {
    let mut out = rt.stdout();
    let mut errors = rt.stderr();
    if arguments::to_run(&rt, "why", USAGE, b"why 6.2.15\n", &mut out, &mut errors) {
        let mut out = Buffered::new(out);
        program::run("why", print_book, &mut rt.stdin(), &mut out, &mut errors);
    }
}
