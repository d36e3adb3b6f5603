// The running tally of moves and cuts.
#![tactic(auto)]

ghost use Rattle.std.specs.Prelude.{◌≡◌};
ghost use Rattle.tally.specs.Counting.{moves_added, cuts_added, Fitting, Counted};

pub fn none() -> model::Tally
    ensures { (result.moves ≡ 0) × (result.cuts ≡ 0) }
{
    model::Tally { moves: 0, cuts: 0 }
}

// The tally is lent here alone: whoever carries one calls `carried`, whose contract has no reference.
fn add(t: &mut model::Tally, moves: u64, cuts: u8)
    requires { Fitting t.old moves cuts }
    ensures { Counted t.old moves cuts t.new }
{
    t.moves += moves;
    t.cuts += cuts as u64;
}

fn carried(mut t: model::Tally, moves: u64, cuts: u8) -> model::Tally
    requires { Fitting t moves cuts }
    ensures { Counted t moves cuts result }
{
    add(&mut t, moves, cuts);
    t
}

// A refused sheet counts for nothing.
pub fn tallied(t: model::Tally, answer: Result<model::ShareOut, model::Refusal>) -> model::Tally
    requires { Fitting t (moves_added answer) (cuts_added answer) }
    ensures { Counted t (moves_added answer) (cuts_added answer) result }
{
    match answer {
        Ok(out) => carried(t, out.moves, out.cuts),
        Err(_) => t,
    }
}
