// The text of one sheet, from what its share-out answered and left in the lists lent to it.
ghost use Rattle.std.specs.Prelude.{List, ◌≡◌, OnOk, length};
ghost use Rattle.std.specs.Io.KnownBytes.{Appends};
ghost use Rattle.model.specs.Sheet.{chores_of, as_read};
ghost use Rattle.model.specs.Algorithm.{opening};
ghost use Rattle.model.specs.Record.{Move, record_of};
ghost use Rattle.pages.specs.Printer.{text_of};
ghost use Rattle.pages.specs.Answered.{Left, Answered};
ghost use Rattle.why.specs.Page.{run_lines};
ghost use Rattle.why.specs.Told.{printer, Noted, NotedIf};

use model::{Refusal, ShareOut};
use sheet::valid::Sheet;
use std::io;
use std::io::Write;
use text::{lines, moves};

// The opening list. Its prices, and who likes what, are left here.
fn opening_owners(sheet: &Sheet, owners: &mut [u8])
    requires { length owners.old ≡ chores_of sheet.now }
    ensures { owners.new ≡ (opening (as_read sheet.now)).owners }
{
    let m = sheet.chores();
    let mut prices = [0; model::MAX_CHORES];
    let mut likes = [0; model::MAX_CHORES];
    opening::open(sheet, owners, &mut prices[..m], &mut likes[..m]);
}

fn run_lines<W: Write>(
    number: u64,
    out: ShareOut,
    opened: &[u8],
    bytes: &[u8],
    owners: &[u8],
    prices: &[u32],
    to: &mut W,
) -> io::Result<()>
    ensures { OnOk result ((moves : List Move) → bytes.now ≡ record_of moves → Appends (W.contents to.old) (W.contents to.new) (run_lines number out.moves out.cuts opened.now moves owners.now prices.now)) }
{
    lines::write_sheet_line(number, out.moves, out.cuts as u64, to)?;
    lines::write_opening_line(opened, to)?;
    moves::write_moves(bytes, to)?;
    lines::write_owners_line(owners, to)?;
    lines::write_prices_line(prices, to)
}

// An accepted sheet: its entries stand first in the lists, and its moves in the record.
fn shared_text<W: Write>(
    sheet: &Sheet,
    number: u64,
    out: ShareOut,
    owners: &[u8],
    prices: &[u32],
    bytes: &[u8],
    to: &mut W,
) -> io::Result<()>
    requires left { Left printer sheet.now out.moves out.cuts owners.now prices.now }
    requires noted { Noted sheet.now bytes.now }
    ensures { OnOk result (Appends (W.contents to.old) (W.contents to.new) (text_of printer sheet.now number)) }
{
    let m = sheet.chores();
    let end = model::MOVE_SIZE * out.moves as usize;
    let mut opened = [0; model::MAX_CHORES];
    let opened = &mut opened[..m];
    opening_owners(sheet, opened);
    run_lines(
        number,
        out,
        opened,
        &bytes[..end],
        &owners[..m],
        &prices[..m],
        to,
    )
}

pub fn answer_text<W: Write>(
    sheet: &[u8],
    number: u64,
    answer: Result<ShareOut, Refusal>,
    owners: &[u8],
    prices: &[u32],
    bytes: &[u8],
    to: &mut W,
) -> io::Result<()>
    requires answered { Answered printer sheet.now owners.now prices.now answer }
    requires noted_if { NotedIf sheet.now bytes.now }
    ensures { OnOk result (Appends (W.contents to.old) (W.contents to.new) (text_of printer sheet.now number)) }
{
    match answer {
        Ok(out) => {
            let sheet = Sheet::read(sheet).unwrap();
            shared_text(&sheet, number, out, owners, prices, bytes, to)
        }
        Err(refusal) => lines::write_refused_line(number, refusal, to),
    }
}
