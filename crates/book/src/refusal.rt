// What a book is turned down for.
ghost use Rattle.std.specs.Prelude.{◌≡◌};
ghost use Rattle.model.specs.RefusalNumbers.{number_of};
ghost use Rattle.model.specs.Refusals.{book_refusal};

use model::Refusal;
use sheet::admit_lent;

pub fn admit(book: &[u8], owners: usize, prices: usize, scratch: usize) -> Result<(), Refusal>
    ensures { number_of result ≡ book_refusal book.now owners prices scratch }
{
    contents::admit_book(book)?;
    admit_lent(model::BOOK_ENTRIES, owners)?;
    admit_lent(model::BOOK_ENTRIES, prices)?;
    admit_lent(model::SCRATCH_SIZE, scratch)
}
