// The C interface: the calls on byte slices and numbers. A price takes four bytes, high byte first.
// Each export is one call of a function with the same promise in a crate below, or the number of its answer. Numbers are what C takes.
#![tactic(auto)]

ghost use Rattle.model.specs.Promises.{MeasuredList};
ghost use Rattle.cmodel.specs.Promises.{AllocatedInC, RecordedInC, ListCheckedInC, PricesCheckedInC, FoundInC, BookAllocatedInC, JoinedInC, ShownInC, MeasuredInC};

#[unsafe(no_mangle)]
pub extern "C" fn shares_allocate(
    sheet: &[u8],
    owners: &mut [u8],
    prices: &mut [u8],
    scratch: &mut [u8],
    moves: &mut u64,
    cuts: &mut u8,
) -> u8
    ensures { AllocatedInC sheet.now owners.old prices.old scratch.old owners.new prices.new scratch.new moves.old cuts.old moves.new cuts.new result }
{
    callocation::allocate(sheet, owners, prices, scratch, moves, cuts)
}

#[unsafe(no_mangle)]
pub extern "C" fn shares_allocate_recorded(
    sheet: &[u8],
    owners: &mut [u8],
    prices: &mut [u8],
    scratch: &mut [u8],
    record: &mut [u8],
    moves: &mut u64,
    cuts: &mut u8,
) -> u8
    ensures { RecordedInC sheet.now owners.old prices.old scratch.old «record».old owners.new prices.new scratch.new «record».new moves.old cuts.old moves.new cuts.new result }
{
    callocation::allocate_recorded(sheet, owners, prices, scratch, record, moves, cuts)
}

#[unsafe(no_mangle)]
pub extern "C" fn shares_check_list(
    sheet: &[u8],
    owners: &[u8],
    slack: u8,
    dominating: &mut [u8],
) -> u32
    ensures { ListCheckedInC sheet.now owners.now slack dominating.old dominating.new result }
{
    cchecks::check_list(sheet, owners, slack, dominating)
}

#[unsafe(no_mangle)]
pub extern "C" fn shares_check_prices(sheet: &[u8], owners: &[u8], prices: &[u8]) -> u32
    ensures { PricesCheckedInC sheet.now owners.now prices.now result }
{
    cchecks::check_prices(sheet, owners, prices)
}

#[unsafe(no_mangle)]
pub extern "C" fn shares_find_sheet(
    book: &[u8],
    sheet_number: usize,
    start: &mut usize,
    size: &mut usize,
) -> u8
    ensures { FoundInC book.now sheet_number start.old size.old start.new size.new result }
{
    clookup::find_sheet(book, sheet_number, start, size)
}

#[unsafe(no_mangle)]
pub extern "C" fn shares_allocate_book(
    book: &[u8],
    owners: &mut [u8],
    prices: &mut [u8],
    scratch: &mut [u8],
    refusals: &mut [u8; model::MAX_SHEETS],
    moves: &mut [u64; model::MAX_SHEETS],
    cuts: &mut [u8; model::MAX_SHEETS],
    firsts: &mut [u32; model::MAX_SHEETS],
    tally: &mut [u64; 2],
) -> u8
    ensures { BookAllocatedInC book.now owners.old prices.old scratch.old owners.new prices.new scratch.new refusals.old moves.old cuts.old firsts.old tally.old refusals.new moves.new cuts.new firsts.new tally.new result }
{
    cbook::allocate_book(
        book, owners, prices, scratch, refusals, moves, cuts, firsts, tally,
    )
}

#[unsafe(no_mangle)]
pub extern "C" fn shares_join(
    first: &[u8],
    second: &[u8],
    joined: &mut [u8],
    written: &mut usize,
) -> u8
    ensures { JoinedInC first.now second.now joined.old joined.new written.old written.new result }
{
    cstrands::join(first, second, joined, written)
}

#[unsafe(no_mangle)]
pub extern "C" fn shares_show_marks<'a>(
    first: &'a [u8],
    second: &'a [u8],
    person: usize,
    chore: usize,
    strand: &mut u8,
    start: &mut usize,
    size: &mut usize,
) -> u8
    ensures { ShownInC first.now second.now person chore strand.old start.old size.old strand.new start.new size.new result }
{
    cstrands::show_marks(first, second, person, chore, strand, start, size)
}

#[unsafe(no_mangle)]
pub extern "C" fn shares_measures(sheet: &[u8], measures: &mut [u32; model::MAX_AGENTS]) -> u8
    ensures { MeasuredInC sheet.now measures.old measures.new result }
{
    cmeasures::measures(sheet, measures)
}

#[unsafe(no_mangle)]
pub extern "C" fn shares_measured_list(sheet: &[u8], owners: &mut [u8]) -> u8
    ensures { MeasuredList sheet.now owners.old owners.new result }
{
    model::number_of(measuredlist::measured_list(sheet, owners))
}
