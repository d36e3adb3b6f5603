// Text that goes out whole, or it is said what failed.
ghost use Rattle.std.specs.Prelude.{OnOk};
ghost use Rattle.std.specs.Io.KnownBytes.{Appends};

use std::fmt::InlineText;
use std::io;
use std::io::Write;

pub fn put<W: Write>(text: &[u8], to: &mut W) -> io::Result<()>
    ensures { OnOk result (Appends (W.contents to.old) (W.contents to.new) text.now) }
{
    to.write_all(text)?;
    to.flush()
}

// A line that says what failed, in the program's words and then in the system's. Where this fails as well, there is nowhere left to say it.
pub fn fail<E: Write>(name: &str, failure: &str, error: &io::Error, errors: &mut E) {
    let said = InlineText::<128>::of(error);
    let text = said.as_str();
    let words = match text.rsplit_once(" (os error ") {
        Some((words, _)) => words,
        None => text,
    };
    let _ = writeln!(errors, "{name}: {failure}: {words}");
}
