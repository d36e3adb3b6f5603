// The record of a run: six bytes to a move.
#![tactic(auto)]

ghost use Rattle.std.specs.Prelude.{◌≡◌, ◌*◌, ◌+◌, ◌≤◌, length};
ghost use Rattle.std.proofs.lemmas.List.Edits.{sets};
ghost use Rattle.model.specs.Record.{move_size, step_of, move_bytes};
ghost use Rattle.model.specs.RefusalNumbers.{number_of};
ghost use Rattle.model.specs.Refusals.{record_refusal};
ghost use Rattle.records.specs.Noted.{Numbers, move_of, Noted};

use model::Refusal;

// How many moves so many bytes hold. Six times a number of moves is not taken before it is known to be in the record.
fn room(bytes: usize) -> u64
    ensures result_bound { move_size * result ≤ bytes }
    ensures bytes_bound { bytes + 1 ≤ move_size * (result + 1) }
{
    (bytes / model::MOVE_SIZE) as u64
}

// Whether so many moves fit in so many bytes.
pub fn admit_moves(moves: u64, bytes: usize) -> Result<(), Refusal>
    ensures { number_of result ≡ record_refusal moves bytes }
{
    if moves > room(bytes) {
        return Err(Refusal::Record);
    }
    Ok(())
}

// 1 for 2a, 2 for 2b, which is stage 0.
fn step_of(stage: u8) -> u8
    ensures { result ≡ step_of stage }
{
    if stage == 0 {
        return 2;
    }
    1
}

fn write_move(
    record: &mut [u8],
    at: usize,
    chore: usize,
    giver: usize,
    receiver: usize,
    cuts: u8,
    stage: u8,
)
    requires numbers { Numbers chore giver receiver cuts }
    requires move_size_in_bounds { at + move_size ≤ length «record».old }
    ensures { «record».new ≡ sets «record».old at (move_bytes (move_of chore giver receiver cuts stage)) }
{
    let number = chore + 1;
    let step = step_of(stage);
    record[at] = (number / 256) as u8;
    record[at + 1] = (number % 256) as u8;
    record[at + 2] = giver as u8 + 1;
    record[at + 3] = receiver as u8 + 1;
    record[at + 4] = cuts + 1;
    record[at + 5] = step;
}

// Writes a move after `made` others, if there is room for it.
pub fn note(
    record: &mut [u8],
    made: u64,
    chore: usize,
    giver: usize,
    receiver: usize,
    cuts: u8,
    stage: u8,
)
    requires { Numbers chore giver receiver cuts }
    ensures { Noted made (move_of chore giver receiver cuts stage) «record».old «record».new }
{
    if made < room(record.len()) {
        let at = model::MOVE_SIZE * made as usize;
        write_move(record, at, chore, giver, receiver, cuts, stage);
    }
}
