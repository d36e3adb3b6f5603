// The price check: each chore is to be best for its owner, and nobody's price up to one above anybody's price sum.
#![tactic(auto)]

ghost use Rattle.std.specs.Prelude.{◌≡◌, ◌+◌, ◌*◌, ◌≤◌, ◌<◌, max, cond, eqb, length, IfOk, IfSome, MatchOption};
ghost use Rattle.finite.specs.Lists.{Picks};
ghost use Rattle.finite.specs.Search.{if_below};
ghost use Rattle.finite.specs.Sums.{max_to};
ghost use Rattle.model.specs.Limits.{max_agents, max_price};
ghost use Rattle.model.specs.Instance.{owner_of, price_of};
ghost use Rattle.model.specs.Sheet.{chores_of, as_marked};
ghost use Rattle.model.specs.RefusalNumbers.{number_of};
ghost use Rattle.model.specs.Refusals.{prices_refusal, price_refusal};
ghost use Rattle.model.specs.Verdicts.{first_of_pair, second_of_pair, first_off_price};
ghost use Rattle.model.specs.Replies.{price_reply};
ghost use Rattle.model.specs.Promises.{PricesChecked};
ghost use Rattle.totals.specs.Totals.{Held};
ghost use Rattle.pricecheck.specs.Parts.{PricesGiven, above, outpays, envy_verdict};
ghost use Rattle.pricecheck.specs.Worths.{Weighable, UpToEight, worth_in, Column, Greatest};

use model::{PriceVerdict, Refusal};
use sheet::valid::Sheet;

// What a list of prices is turned down for.
fn admit_prices(prices: &[u32], m: usize) -> Result<(), Refusal>
    ensures { number_of result ≡ prices_refusal m prices.now }
{
    if prices.len() != m {
        return Err(Refusal::Prices);
    }
    if !prices.iter().all(|&price| !sheet::out_of_range(
        price as usize,
        model::MAX_PRICE as usize,
    )) {
        return Err(Refusal::Prices);
    }
    Ok(())
}

// The sheet, or what the price check is turned down for.
fn admit<'a>(bytes: &'a [u8], owners: &[u8], prices: &[u32]) -> Result<Sheet<'a>, Refusal>
    ensures number { number_of result ≡ price_refusal bytes.now owners.now prices.now }
    ensures same { IfOk result (λ sheet. sheet ≡ bytes.now) }
{
    let sheet = given::read_given(bytes, owners)?;
    admit_prices(prices, sheet.chores())?;
    Ok(sheet)
}

// What a chore is worth to an agent: its price times the weight that it does not cost. A cost times the other weight is a times b, whichever
// the mark, so the ratio of cost to price is the lower the more a chore is worth.
fn worth(price: u32, a: u32, b: u32, mark: u8) -> u32
    requires { Weighable price a b mark }
    ensures { result ≡ price * cond (eqb mark 1) a b }
{
    let cost = given::mark_cost(a, b, mark);
    price * (a + b - cost)
}

// The greatest worth of up to eight chores, `count` from `first` on, to an agent whose marks for them are in `byte`; or `known`, if that is
// greater.
fn greatest_in_byte(
    byte: u8,
    prices: &[u32],
    first: usize,
    count: usize,
    a: u32,
    b: u32,
    known: u32,
) -> u32
    requires { UpToEight prices.now a b first count }
    ensures { result ≡ max known (max_to count (worth_in a b prices.now first byte)) }
{
    let mut greatest = known;
    for j in 0..count {
        greatest = greatest.max(worth(prices[first + j], a, b, sheet::mark_in(byte, j)));
    }
    greatest
}

// The greatest worths so far, with `count` chores more: those whose marks are in byte k of a row. To nobody are they worth more than if all were
// marked easy, so most agents' marks need not be read; none are where `count` is 0.
fn raise(
    sheet: &Sheet,
    prices: &[u32],
    k: usize,
    count: usize,
    greatest: &mut [u32; model::MAX_AGENTS],
)
    requires column { Column sheet.now prices.now k count }
    requires greatest { Greatest sheet.now prices.now (8 * k) greatest.old }
    ensures { Greatest sheet.now prices.now (8 * k + count) greatest.new }
{
    let n = sheet.agents();
    let a = sheet.easy_weight();
    let b = sheet.difficult_weight();
    let first = 8 * k;
    let most = greatest_in_byte(0, prices, first, count, a, b, 0);
    for i in 0..n {
        let known = greatest[i];
        if known < most {
            let byte = sheet.row_byte(i, k);
            greatest[i] = greatest_in_byte(byte, prices, first, count, a, b, known);
        }
    }
}

// For each agent the greatest worth of any chore. Eight is written out, so that the compiler unrolls the loop over a whole byte's marks.
fn greatest_worths(sheet: &Sheet, prices: &[u32]) -> [u32; model::MAX_AGENTS]
    requires { Picks max_price (chores_of sheet.now) prices.now }
    ensures { Greatest sheet.now prices.now (chores_of sheet.now) result }
{
    let m = sheet.chores();
    let mut greatest = [0; model::MAX_AGENTS];
    for k in 0..m / 8 {
        raise(sheet, prices, k, 8, &mut greatest);
    }
    raise(sheet, prices, m / 8, m % 8, &mut greatest);
    greatest
}

// The first chore that is not best for its owner. A chore is best if no other is worth more to its owner.
fn first_off_price(sheet: &Sheet, owners: &[u8], prices: &[u32]) -> Option<usize>
    requires { PricesGiven sheet.now owners.now prices.now }
    ensures is { result ≡ if_below (chores_of sheet.now) (first_off_price (as_marked sheet.now) (owner_of owners.now) (price_of prices.now)) }
    ensures within { IfSome result (λ c. c < chores_of sheet.now) }
{
    let a = sheet.easy_weight();
    let b = sheet.difficult_weight();
    let greatest = greatest_worths(sheet, prices);
    (0..sheet.chores()).find(|&c| {
        let i = given::owner(owners, c);
        worth(prices[c], a, b, sheet.mark(i, c)) < greatest[i]
    })
}

// The first pair by the first agent and then by the second, where the first's price up to one is above the second's sum. An agent with no chore
// has a price up to one of 0, which is above no sum: it envies nobody.
fn first_envy(
    n: usize,
    ups: &[u32; model::MAX_AGENTS],
    sums: &[u32; model::MAX_AGENTS],
) -> Option<(usize, usize)>
    requires { n ≤ max_agents }
    ensures { let t = above ups.now sums.now in MatchOption result (first_of_pair n t ≡ n) (λ p. (p.0 < n) × (p.1 < n) × (p.0 ≡ first_of_pair n t) × (p.1 ≡ second_of_pair n t)) }
{
    (0..n).find_map(|i| totals::first_below(n, sums, ups[i]).map(|j| (i, j)))
}

// Price envy by the first pair, or acceptance.
fn envy_verdict(owners: &[u8], prices: &[u32], n: usize) -> PriceVerdict
    requires held { Held owners.now prices.now }
    requires n_le_max_agents { n ≤ max_agents }
    ensures { price_reply (Ok result) ≡ envy_verdict n (outpays (length owners.now) (owner_of owners.now) (price_of prices.now)) }
{
    let mut sums = [0; model::MAX_AGENTS];
    let mut ups = [0; model::MAX_AGENTS];
    totals::sum_up(n, owners, prices, &mut sums, &mut ups);
    match first_envy(n, &ups, &sums) {
        Some((i, j)) => PriceVerdict::PriceEnvy((i + 1) as u8, (j + 1) as u8),
        None => PriceVerdict::Accepted,
    }
}

// Whether a list of owners, with prices, is accepted.
pub fn check_prices(sheet: &[u8], owners: &[u8], prices: &[u32]) -> Result<PriceVerdict, Refusal>
    ensures { PricesChecked sheet.now owners.now prices.now result }
{
    let sheet = admit(sheet, owners, prices)?;
    if let Some(c) = first_off_price(&sheet, owners, prices) {
        return Ok(PriceVerdict::OffPrice((c + 1) as u16));
    }
    Ok(envy_verdict(owners, prices, sheet.agents()))
}
