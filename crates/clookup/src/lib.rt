// The lookup of a sheet for C.
#![tactic(auto)]

ghost use Rattle.cmodel.specs.Promises.{FoundInC};

// The part itself cannot be returned to C, so the call tells where it lies.
pub fn find_sheet(book: &[u8], sheet_number: usize, start: &mut usize, size: &mut usize) -> u8
    ensures { FoundInC book.now sheet_number start.old size.old start.new size.new result }
{
    if let Err(refusal) = contents::admit_lookup(book, sheet_number) {
        return u8::from(refusal);
    }
    let j = sheet_number - 1;
    *start = contents::start_of(book, j);
    *size = contents::size_of(book, j);
    0
}
