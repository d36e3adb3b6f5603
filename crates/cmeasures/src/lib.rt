// Everyone's own measure for C: the numbers in lent memory.
#![tactic(auto)]

ghost use Rattle.cmodel.specs.Promises.{MeasuredInC};

// The refusal number or 0.
pub fn measures(sheet: &[u8], measures: &mut [u32; model::MAX_AGENTS]) -> u8
    ensures { MeasuredInC sheet.now measures.old measures.new result }
{
    model::number_of(measures::measures_over(sheet, measures))
}
