// What a program does beside its work: what its argument asks for, its input, its output.
#![tactic(auto)]

pub mod arguments;
pub mod buffered;
pub mod input;
pub mod output;

use std::io;
use std::io::{Read, Write};

// Reads one book, and prints what `print` makes of it. The buffer has one byte more than the longest book, so that a longer one is seen by its
// length, and turned down.
pub fn run<R: Read, W: Write, E: Write, F: FnOnce(&[u8], &mut W) -> io::Result<()>>(
    name: &str,
    print: F,
    from: &mut R,
    to: &mut W,
    errors: &mut E,
)
    requires { F.IsAlwaysCallable print }
{
    let mut book = [0; model::MAX_BOOK + 1];
    match input::read_whole(from, &mut book) {
        Ok(size) => {
            if let Err(error) = print(&book[..size], to) {
                output::fail(name, "write error", &error, errors);
            }
        }
        Err(stopped) => output::fail(name, "read error", &stopped.error, errors),
    }
}
