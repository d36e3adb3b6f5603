// The moves of a record, a line for each. Numbers in a record and on a line count from 1.
ghost use Rattle.std.specs.Prelude.{◌+◌, ◌*◌, ◌/◌, ◌≤◌, List, ◌≡◌, length, OnOk};
ghost use Rattle.std.specs.Io.KnownBytes.{Appends};
ghost use Rattle.model.specs.Record.{Move, move_size, record_of};
ghost use Rattle.text.specs.Put.{Put};
ghost use Rattle.text.specs.Moves.{move_lines, move_most, move_room, line_at, PutMoves};

use crate::words;
use model::MOVE_SIZE;
use std::io;
use std::io::Write;

// The chore's number in two bytes, high byte first, then giver, receiver, round and step.
fn move_line(bytes: &[u8; MOVE_SIZE], out: &mut [u8], at: usize) -> usize
    requires { at + move_room ≤ length out.old }
    ensures { Put move_most (line_at bytes.now 0) out.old at out.new result }
{
    let [high, low, giver, receiver, round, step] = *bytes;
    let chore = u16::from_be_bytes([high, low]);
    let a = words::field(b"reel ", chore as u64, out, at);
    let b = words::field(b" from ", giver as u64, out, a);
    let c = words::field(b" to ", receiver as u64, out, b);
    let d = words::field(b" round ", round as u64, out, c);
    let e = words::field(b" step ", step as u64, out, d);
    words::end_line(out, e)
}

// In a lent buffer, where this can't fail.
pub fn moves_text(bytes: &[u8], out: &mut [u8], at: usize) -> usize
    requires { at + move_most * (length bytes.now / move_size) + move_room ≤ length out.old }
    ensures { PutMoves bytes.now out.old at out.new result }
{
    let (moves, _) = bytes.as_chunks::<MOVE_SIZE>();
    let mut end = at;
    for six in moves {
        end = move_line(six, out, end);
    }
    end
}

fn write_move_line<W: Write>(bytes: &[u8; MOVE_SIZE], to: &mut W) -> io::Result<()>
    ensures { OnOk result (Appends (W.contents to.old) (W.contents to.new) (line_at bytes.now 0)) }
{
    let [high, low, giver, receiver, round, step] = *bytes;
    let chore = u16::from_be_bytes([high, low]);
    writeln!(
        to,
        "reel {chore} from {giver} to {receiver} round {round} step {step}"
    )
}

// To a writer, where it can.
pub fn write_moves<W: Write>(bytes: &[u8], to: &mut W) -> io::Result<()>
    ensures { OnOk result ((moves : List Move) → bytes.now ≡ record_of moves → Appends (W.contents to.old) (W.contents to.new) (move_lines moves)) }
{
    let (moves, _) = bytes.as_chunks::<MOVE_SIZE>();
    for six in moves {
        write_move_line(six, to)?;
    }
    Ok(())
}
