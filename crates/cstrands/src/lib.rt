// Two strands for C: the joined sheet, and where an agent's marks lie.
#![tactic(auto)]

ghost use Rattle.cmodel.specs.Promises.{JoinedInC, ShownInC};

// The refusal number or 0. What is lent is written only where nothing was refused.
pub fn join(first: &[u8], second: &[u8], joined: &mut [u8], written: &mut usize) -> u8
    ensures { JoinedInC first.now second.now joined.old joined.new written.old written.new result }
{
    match strands::join_sheets(first, second, joined) {
        Ok(size) => {
            *written = size;
            0
        }
        Err(refusal) => u8::from(refusal),
    }
}

// The part itself cannot be returned to C, so the call tells where it lies.
pub fn show_marks<'a>(
    first: &'a [u8],
    second: &'a [u8],
    person: usize,
    chore: usize,
    strand: &mut u8,
    start: &mut usize,
    size: &mut usize,
) -> u8
    ensures { ShownInC first.now second.now person chore strand.old start.old size.old strand.new start.new size.new result }
{
    if let Err(refusal) = strands::admit_show(first, second, person, chore) {
        return u8::from(refusal);
    }
    let held = strands::strand_sheet(first, second, chore);
    let m = sheet::chores(held);
    *strand = strands::strand_of(first, chore);
    *start = sheet::row_start(m, person - 1);
    *size = sheet::row_size(m);
    0
}
