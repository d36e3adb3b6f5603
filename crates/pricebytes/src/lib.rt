// Prices as bytes, the way C lends them: four to a price, high byte first.
#![tactic(auto)]

ghost use Rattle.std.specs.Prelude.{◌≡◌, ◌+◌, ◌*◌, ◌/◌, ◌≤◌, min, ◌++◌, length, take, drop};
ghost use Rattle.std.proofs.lemmas.List.Edits.{sets};
ghost use Rattle.pricebytes.specs.PriceBytes.{price_at, prices_in, four_bytes, with_prices, Room};

// Bytes to a price.
pub const SIZE: usize = 4;

// How many prices a list of so many bytes holds, `most` at most: no call looks at more.
pub fn entries(bytes: usize, most: usize) -> usize
    ensures { result ≡ min (bytes / 4) most }
{
    (bytes / SIZE).min(most)
}

fn price_at(bytes: &[u8], c: usize) -> u32
    requires { 4 * c + 4 ≤ length bytes.now }
    ensures { result ≡ price_at bytes.now c }
{
    let at = SIZE * c;
    u32::from_be_bytes([bytes[at], bytes[at + 1], bytes[at + 2], bytes[at + 3]])
}

// The first n prices.
pub fn read_prices(bytes: &[u8], n: usize, prices: &mut [u32])
    requires { Room bytes.now n prices.old }
    ensures { prices.new ≡ take n (prices_in bytes.now) ++ drop n prices.old }
{
    for (i, price) in prices[..n].iter_mut().enumerate() {
        *price = price_at(bytes, i);
    }
}

fn write_price(bytes: &mut [u8], c: usize, price: u32)
    requires { 4 * c + 4 ≤ length bytes.old }
    ensures { bytes.new ≡ sets bytes.old (4 * c) (four_bytes price) }
{
    let at = SIZE * c;
    let four = price.to_be_bytes();
    bytes[at..at + SIZE].copy_from_slice(&four);
}

// The first n prices, over the first 4 n bytes.
pub fn write_prices(prices: &[u32], n: usize, bytes: &mut [u8])
    requires { Room bytes.old n prices.now }
    ensures { bytes.new ≡ with_prices n prices.now bytes.old }
{
    for (c, &price) in prices[..n].iter().enumerate() {
        write_price(bytes, c, price);
    }
}
