// The lines that the programs print, in a lent buffer and to a writer. In a buffer a line can't fail, and the number in its contract is the most
// that it takes. To a writer it can, and its contract holds of one whose bytes are known. So both stand; the programs print by the second.
ghost use Rattle.std.specs.Prelude.{◌+◌, ◌*◌, ◌≤◌, length, OnOk};
ghost use Rattle.std.specs.Io.KnownBytes.{Appends};
ghost use Rattle.model.specs.RefusalNumbers.{refusal_number};
ghost use Rattle.text.specs.Text.{spaced};
ghost use Rattle.text.specs.Lines.{sheet_line, list_line, owners_line, prices_line, opening_line, refused_line, book_refused_line, total_line};
ghost use Rattle.text.specs.Put.{Put};

use crate::words;
use model::Refusal;
use std::io;
use std::io::Write;

pub fn sheet_line(number: u64, moves: u64, cuts: u64, out: &mut [u8], at: usize) -> usize
    requires { at + 80 ≤ length out.old }
    ensures { Put 80 (sheet_line number moves cuts) out.old at out.new result }
{
    let a = words::field(b"sheet ", number, out, at);
    let b = words::field(b" moves ", moves, out, a);
    let c = words::field(b" cuts ", cuts, out, b);
    words::end_line(out, c)
}

// A word, and an agent's number for each chore.
fn agents_line(word: &[u8], agents: &[u8], out: &mut [u8], at: usize) -> usize
    requires { at + length word.now + 4 * length agents.now + 21 ≤ length out.old }
    ensures { Put (length word.now + 4 * length agents.now + 1) (list_line word.now agents.now) out.old at out.new result }
{
    let a = words::word(word, out, at);
    let b = words::spaced_u8(agents, out, a);
    words::end_line(out, b)
}

pub fn owners_line(owners: &[u8], out: &mut [u8], at: usize) -> usize
    requires { at + 4 * length owners.now + 27 ≤ length out.old }
    ensures { Put (4 * length owners.now + 7) (owners_line owners.now) out.old at out.new result }
{
    agents_line(b"owners", owners, out, at)
}

pub fn opening_line(owners: &[u8], out: &mut [u8], at: usize) -> usize
    requires { at + 4 * length owners.now + 28 ≤ length out.old }
    ensures { Put (4 * length owners.now + 8) (opening_line owners.now) out.old at out.new result }
{
    agents_line(b"opening", owners, out, at)
}

pub fn prices_line(prices: &[u32], out: &mut [u8], at: usize) -> usize
    requires { at + 11 * length prices.now + 27 ≤ length out.old }
    ensures { Put (11 * length prices.now + 7) (prices_line prices.now) out.old at out.new result }
{
    let a = words::word(b"prices", out, at);
    let b = words::spaced_u32(prices, out, a);
    words::end_line(out, b)
}

pub fn refused_line(number: u64, refusal: u64, out: &mut [u8], at: usize) -> usize
    requires { at + 56 ≤ length out.old }
    ensures { Put 56 (refused_line number refusal) out.old at out.new result }
{
    let a = words::field(b"sheet ", number, out, at);
    let b = words::field(b" refused ", refusal, out, a);
    words::end_line(out, b)
}

pub fn book_refused_line(refusal: u64, out: &mut [u8], at: usize) -> usize
    requires { at + 34 ≤ length out.old }
    ensures { Put 34 (book_refused_line refusal) out.old at out.new result }
{
    let a = words::field(b"book refused ", refusal, out, at);
    words::end_line(out, a)
}

pub fn total_line(moves: u64, cuts: u64, out: &mut [u8], at: usize) -> usize
    requires { at + 59 ≤ length out.old }
    ensures { Put 59 (total_line moves cuts) out.old at out.new result }
{
    let a = words::field(b"total moves ", moves, out, at);
    let b = words::field(b" cuts ", cuts, out, a);
    words::end_line(out, b)
}

pub fn write_sheet_line<W: Write>(number: u64, moves: u64, cuts: u64, to: &mut W) -> io::Result<()>
    ensures { OnOk result (Appends (W.contents to.old) (W.contents to.new) (sheet_line number moves cuts)) }
{
    writeln!(to, "sheet {number} moves {moves} cuts {cuts}")
}

// So many numbers go to a writer at once, out of a buffer: one by one, each through `Display`, they were measured slower.
const PART: usize = 64;

// A number for each chore, each after a space.
fn write_agents<W: Write>(agents: &[u8], to: &mut W) -> io::Result<()>
    ensures { OnOk result (Appends (W.contents to.old) (W.contents to.new) (spaced agents.now)) }
{
    let mut room = [0; 4 * PART + 20];
    let mut rest = agents;
    while !rest.is_empty() {
        let (part, more) = rest.split_at(rest.len().min(PART));
        let end = words::spaced_u8(part, &mut room, 0);
        to.write_all(&room[..end])?;
        rest = more;
    }
    Ok(())
}

fn write_prices<W: Write>(prices: &[u32], to: &mut W) -> io::Result<()>
    ensures { OnOk result (Appends (W.contents to.old) (W.contents to.new) (spaced prices.now)) }
{
    let mut room = [0; 11 * PART + 20];
    let mut rest = prices;
    while !rest.is_empty() {
        let (part, more) = rest.split_at(rest.len().min(PART));
        let end = words::spaced_u32(part, &mut room, 0);
        to.write_all(&room[..end])?;
        rest = more;
    }
    Ok(())
}

fn write_agents_line<W: Write>(word: &[u8], agents: &[u8], to: &mut W) -> io::Result<()>
    ensures { OnOk result (Appends (W.contents to.old) (W.contents to.new) (list_line word.now agents.now)) }
{
    to.write_all(word)?;
    write_agents(agents, to)?;
    to.write_all(b"\n")
}

pub fn write_owners_line<W: Write>(owners: &[u8], to: &mut W) -> io::Result<()>
    ensures { OnOk result (Appends (W.contents to.old) (W.contents to.new) (owners_line owners.now)) }
{
    write_agents_line(b"owners", owners, to)
}

pub fn write_opening_line<W: Write>(owners: &[u8], to: &mut W) -> io::Result<()>
    ensures { OnOk result (Appends (W.contents to.old) (W.contents to.new) (opening_line owners.now)) }
{
    write_agents_line(b"opening", owners, to)
}

pub fn write_prices_line<W: Write>(prices: &[u32], to: &mut W) -> io::Result<()>
    ensures { OnOk result (Appends (W.contents to.old) (W.contents to.new) (prices_line prices.now)) }
{
    to.write_all(b"prices")?;
    write_prices(prices, to)?;
    to.write_all(b"\n")
}

pub fn write_refused_line<W: Write>(number: u64, refusal: Refusal, to: &mut W) -> io::Result<()>
    ensures { OnOk result (Appends (W.contents to.old) (W.contents to.new) (refused_line number (refusal_number refusal))) }
{
    let refusal = u8::from(refusal);
    writeln!(to, "sheet {number} refused {refusal}")
}

pub fn write_book_refused_line<W: Write>(refusal: Refusal, to: &mut W) -> io::Result<()>
    ensures { OnOk result (Appends (W.contents to.old) (W.contents to.new) (book_refused_line (refusal_number refusal))) }
{
    let refusal = u8::from(refusal);
    writeln!(to, "book refused {refusal}")
}

pub fn write_total_line<W: Write>(moves: u64, cuts: u64, to: &mut W) -> io::Result<()>
    ensures { OnOk result (Appends (W.contents to.old) (W.contents to.new) (total_line moves cuts)) }
{
    writeln!(to, "total moves {moves} cuts {cuts}")
}
