// The two checks for C: verdicts as numbers, prices as bytes.
#![tactic(auto)]

ghost use Rattle.std.specs.Prelude.{◌≡◌, ◌+◌, ◌*◌, length};
ghost use Rattle.model.specs.Replies.{list_reply, price_reply};
ghost use Rattle.cmodel.specs.Numbers.{verdict_number};
ghost use Rattle.cmodel.specs.Promises.{ListCheckedInC, PricesCheckedInC};
ghost use Rattle.cchecks.specs.Parts.{kind_number, ForPrices};

use model::{ListVerdict, PriceVerdict, Refusal};

// The kinds of verdicts, by their numbers for C. No two are the same, so that a verdict tells by itself which check it is of.
#[derive(Clone, Copy)]
pub enum Kind {
    Holds = 1,
    Unfair = 2,
    Wasteful = 3,
    Accepted = 4,
    OffPrice = 5,
    PriceEnvy = 6,
}

fn verdict(kind: Kind, values: u16) -> u32
    ensures { result ≡ 65536 * values + 256 * kind_number kind }
{
    65536 * (values as u32) + 256 * (kind as u32)
}

fn pair(i: u8, j: u8) -> u16
    ensures { result ≡ i + 256 * j }
{
    u16::from_le_bytes([i, j])
}

fn list_number(answer: Result<ListVerdict, Refusal>) -> u32
    ensures { result ≡ verdict_number (list_reply answer) }
{
    match answer {
        Ok(ListVerdict::Holds) => verdict(Kind::Holds, 0),
        Ok(ListVerdict::Unfair(i, j)) => verdict(Kind::Unfair, pair(i, j)),
        Ok(ListVerdict::Wasteful) => verdict(Kind::Wasteful, 0),
        Err(refusal) => u8::from(refusal) as u32,
    }
}

fn price_number(answer: Result<PriceVerdict, Refusal>) -> u32
    ensures { result ≡ verdict_number (price_reply answer) }
{
    match answer {
        Ok(PriceVerdict::OffPrice(c)) => verdict(Kind::OffPrice, c),
        Ok(PriceVerdict::PriceEnvy(i, j)) => verdict(Kind::PriceEnvy, pair(i, j)),
        Ok(PriceVerdict::Accepted) => verdict(Kind::Accepted, 0),
        Err(refusal) => u8::from(refusal) as u32,
    }
}

pub fn check_list(sheet: &[u8], owners: &[u8], slack: u8, dominating: &mut [u8]) -> u32
    ensures { ListCheckedInC sheet.now owners.now slack dominating.old dominating.new result }
{
    list_number(listcheck::check_list(sheet, owners, slack, dominating))
}

// `lent` is for the prices as numbers. A list of other than 4 m bytes goes on as one price too many: that is turned down in its place among
// the refusals.
fn check_prices_with(sheet: &[u8], owners: &[u8], prices: &[u8], lent: &mut [u32]) -> u32
    requires { ForPrices sheet.now lent.old }
    ensures { PricesCheckedInC sheet.now owners.now prices.now result }
{
    let m = sheet::chores(sheet);
    if prices.len() != 4 * m {
        return price_number(pricecheck::check_prices(sheet, owners, &lent[..m + 1]));
    }
    pricebytes::read_prices(prices, m, lent);
    price_number(pricecheck::check_prices(sheet, owners, &lent[..m]))
}

pub fn check_prices(sheet: &[u8], owners: &[u8], prices: &[u8]) -> u32
    ensures { PricesCheckedInC sheet.now owners.now prices.now result }
{
    if let Err(refusal) = sheet::admit_sheet(sheet) {
        return u8::from(refusal) as u32;
    }
    let mut lent = [0; model::MAX_CHORES + 1];
    check_prices_with(sheet, owners, prices, &mut lent)
}
