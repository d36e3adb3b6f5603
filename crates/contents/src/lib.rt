// The contents of a book: whether they keep the book's rule, and where each sheet lies. Sheets are counted from 0, and numbered from 1.
#![tactic(auto)]

ghost use Rattle.std.specs.Prelude.{◌≡◌, ◌+◌, ◌*◌, ◌≤◌, ◌<◌, [], MatchResult, length};
ghost use Rattle.model.specs.Contents.{sheet_count, sheet_start, sheet_size, book_fits, sheet_of};
ghost use Rattle.model.specs.RefusalNumbers.{refusal_number, number_of};
ghost use Rattle.model.specs.Refusals.{contents_refusal, lookup_refusal};
ghost use Rattle.model.specs.Promises.{SheetFound};
ghost use Rattle.sheet.specs.Readers.{Read};
ghost use Rattle.contents.specs.Parts.{bodies_fit, Contents};
ghost use Rattle.contents.specs.Fits.{SheetInBook};

use model::Refusal;

// The contents are one byte of count and an entry for each sheet: two bytes of start, two of length.
const ENTRY: usize = 4;

pub fn count(book: &[u8]) -> usize
    requires { 0 < length book.now }
    ensures { Read (sheet_count book.now) 256 result }
{
    sheet::byte_at(book, 0) as usize
}

pub fn start_of(book: &[u8], j: usize) -> usize
    requires { 1 + 4 * (j + 1) ≤ length book.now }
    ensures { Read (sheet_start book.now j) 65536 result }
{
    sheet::word_at(book, 1 + ENTRY * j) as usize
}

pub fn size_of(book: &[u8], j: usize) -> usize
    requires { 1 + 4 * (j + 1) ≤ length book.now }
    ensures { Read (sheet_size book.now j) 65536 result }
{
    sheet::word_at(book, 3 + ENTRY * j) as usize
}

// Whether each body starts where the one before it ended, and the last one ends the book. `end` is where the bodies passed end.
fn bodies_fit(book: &[u8], k: usize) -> bool
    requires { Contents book.now k }
    ensures { result ≡ bodies_fit book.now k }
{
    let mut end = 1 + ENTRY * k;
    for j in 0..k {
        if start_of(book, j) != end {
            return false;
        }
        end += size_of(book, j);
    }
    end == book.len()
}

// Each test is made only where what it reads is there.
fn contents_fit(book: &[u8]) -> bool
    ensures { result ≡ book_fits book.now }
{
    if sheet::out_of_range(book.len(), model::MAX_BOOK) {
        return false;
    }
    let k = count(book);
    if sheet::out_of_range(k, model::MAX_SHEETS) {
        return false;
    }
    if book.len() < 1 + ENTRY * k {
        return false;
    }
    bodies_fit(book, k)
}

// Whether a book keeps its rule.
pub fn admit_book(book: &[u8]) -> Result<(), Refusal>
    ensures { number_of result ≡ contents_refusal book.now }
{
    if !contents_fit(book) {
        return Err(Refusal::NotThere);
    }
    Ok(())
}

pub fn admit_lookup(book: &[u8], number: usize) -> Result<(), Refusal>
    ensures { number_of result ≡ lookup_refusal book.now number }
{
    admit_book(book)?;
    if sheet::out_of_range(number, count(book)) {
        return Err(Refusal::NotThere);
    }
    Ok(())
}

pub fn sheet_at(book: &[u8], j: usize) -> &[u8]
    requires { SheetInBook book.now j }
    ensures { result.now ≡ sheet_of book.now j }
{
    let start = start_of(book, j);
    let size = size_of(book, j);
    &book[start..start + size]
}

// The part of the book itself, not a copy of it.
pub fn find_sheet(book: &[u8], which: usize) -> Result<&[u8], Refusal>
    ensures { MatchResult result (λ sheet. SheetFound book.now which 0 sheet.now) (λ refusal. SheetFound book.now which (refusal_number refusal) []) }
{
    admit_lookup(book, which)?;
    Ok(sheet_at(book, which - 1))
}
