// The cases of document 01 that have no star: each limit, at it and one past it, and one case for every other refusal. One line each.
#![tactic(auto)]

ghost use Rattle.std.specs.Prelude.{◌+◌, ◌*◌, ◌≤◌, length};
ghost use Rattle.model.specs.Limits.{max_agents, max_chores, scratch_size};
ghost use Rattle.finite.specs.Packed.{bytes_for};
ghost use Rattle.model.specs.Sheet.{header_size};

use model::{HEADER_SIZE, ListVerdict, PriceVerdict, Refusal, ShareOut};
use std::fmt::Display;
use std::io;

// The longest sheet tried has two rows, of one chore past the limit.
const LONGEST: usize = HEADER_SIZE + 2 * ((model::MAX_CHORES + 8) / 8);

// Sheet C's chores, its two rows, eeeee and dddde, and its bytes.
const CHORES: usize = 5;

const ROWS: [u8; 2] = [0b0000_0000, 0b1111_0000];

const SIZE: usize = HEADER_SIZE + 2;

fn print_refused(rt: &impl Print, refusal: Refusal) -> io::Result<()> {
    println!(rt; " refused {refusal}")
}

// No case of a check comes here.
fn print_taken(rt: &impl Print) -> io::Result<()> {
    println!(rt; " not refused")
}

fn print_list<T: Display>(rt: &impl Print, word: &str, numbers: &[T]) -> io::Result<()> {
    print!(rt; " {word}")?;
    for number in numbers {
        print!(rt; " {number}")?;
    }
    Ok(())
}

fn print_share_out(
    rt: &impl Print,
    answer: Result<ShareOut, Refusal>,
    owners: &[u8],
    prices: &[u32],
) -> io::Result<()> {
    match answer {
        Ok(ShareOut { moves, cuts }) => {
            print!(rt; " moves {moves} cuts {cuts}")?;
            print_list(rt, "owners", owners)?;
            print_list(rt, "prices", prices)?;
            println!(rt)
        }
        Err(refusal) => print_refused(rt, refusal),
    }
}

fn print_list_verdict(rt: &impl Print, answer: Result<ListVerdict, Refusal>) -> io::Result<()> {
    match answer {
        Ok(ListVerdict::Holds) => println!(rt; " holds"),
        Ok(_) => print_taken(rt),
        Err(refusal) => print_refused(rt, refusal),
    }
}

fn print_price_verdict(rt: &impl Print, answer: Result<PriceVerdict, Refusal>) -> io::Result<()> {
    match answer {
        Ok(_) => print_taken(rt),
        Err(refusal) => print_refused(rt, refusal),
    }
}

// The weights are 1 and b.
fn write_header(sheet: &mut [u8], n: u8, m: u16, b: u16)
    requires { header_size ≤ length sheet.old }
{
    sheet[0] = n;
    sheet[1..3].copy_from_slice(&m.to_be_bytes());
    sheet[3..5].copy_from_slice(&1u16.to_be_bytes());
    sheet[5..7].copy_from_slice(&b.to_be_bytes());
}

// The bytes of the rows, over and over.
fn write_rows(sheet: &mut [u8], rows: &[u8])
    requires { header_size ≤ length sheet.old }
{
    for (byte, row) in sheet[HEADER_SIZE..].iter_mut().zip(rows.iter().cycle()) {
        *byte = *row;
    }
}

fn write_sheet(sheet: &mut [u8], n: u8, m: u16, b: u16, rows: &[u8])
    requires { header_size ≤ length sheet.old }
{
    write_header(sheet, n, m, b);
    write_rows(sheet, rows);
}

// The lists have room for a chore past the limit, so that they are not what is turned down. The sheet has m chores.
fn try_share_out(rt: &impl Print, sheet: &[u8], m: usize, scratch: usize) -> io::Result<()>
    requires m_bound { m ≤ max_chores + 1 }
    requires scratch_le_scratch_size { scratch ≤ scratch_size }
{
    let mut owners = [0u8; model::MAX_CHORES + 1];
    let mut prices = [0u32; model::MAX_CHORES + 1];
    let mut lent = [0u8; model::SCRATCH_SIZE];
    let answer = allocation::allocate(sheet, &mut owners, &mut prices, &mut lent[..scratch]);
    print_share_out(rt, answer, &owners[..m], &prices[..m])
}

fn try_sheet(rt: &impl Print, n: u8, m: u16, b: u16, rows: &[u8], scratch: usize) -> io::Result<()>
    requires m_bound { m ≤ max_chores + 1 }
    requires m_bound_2 { n * bytes_for m ≤ 2 * bytes_for (max_chores + 1) }
    requires scratch_le_scratch_size { scratch ≤ scratch_size }
{
    let mut space = [0u8; LONGEST];
    let size = sheet::row_start(m as usize, n as usize);
    let sheet = &mut space[..size];
    write_sheet(sheet, n, m, b, rows);
    try_share_out(rt, sheet, m as usize, scratch)
}

fn try_agents(rt: &impl Print, n: u8) -> io::Result<()>
    requires { n ≤ max_agents + 1 }
{
    print!(rt; "n {n}")?;
    try_sheet(rt, n, 3, 2, &[0b0010_0000], model::SCRATCH_SIZE)
}

fn try_chores(rt: &impl Print, m: u16) -> io::Result<()>
    requires { m ≤ max_chores + 1 }
{
    print!(rt; "m {m}")?;
    try_sheet(rt, 2, m, 2, &[0], model::SCRATCH_SIZE)
}

fn try_weight(rt: &impl Print, b: u16) -> io::Result<()> {
    print!(rt; "b {b}")?;
    try_sheet(rt, 2, 5, b, &ROWS, model::SCRATCH_SIZE)
}

fn try_scratch(rt: &impl Print, scratch: usize) -> io::Result<()>
    requires { scratch ≤ scratch_size }
{
    print!(rt; "scratch {scratch}")?;
    try_sheet(rt, 2, 5, 3, &ROWS, scratch)
}

// Each limit, at it and one past it.
fn try_limits(rt: &impl Print) -> io::Result<()> {
    let agents = model::MAX_AGENTS as u8;
    let chores = model::MAX_CHORES as u16;
    let weight = model::MAX_WEIGHT as u16;
    try_agents(rt, agents)?;
    try_agents(rt, agents + 1)?;
    try_chores(rt, chores)?;
    try_chores(rt, chores + 1)?;
    try_weight(rt, weight)?;
    try_weight(rt, weight + 1)?;
    try_scratch(rt, model::SCRATCH_SIZE)?;
    try_scratch(rt, model::SCRATCH_SIZE - 1)?;
    try_slack(rt, model::MAX_SLACK)?;
    try_slack(rt, model::MAX_SLACK + 1)?;
    try_slack_lent(rt, model::MAX_SLACK + 1, CHORES - 1)
}

// The faults below are made in sheet C.
fn sheet_c() -> [u8; SIZE] {
    let mut sheet = [0u8; SIZE];
    write_sheet(&mut sheet, 2, 5, 3, &ROWS);
    sheet
}

// The bit after the last chore of the last row.
fn try_bit(rt: &impl Print) -> io::Result<()> {
    let mut sheet = sheet_c();
    sheet[8] = 0b1111_0100;
    print!(rt; "bit {}", CHORES + 1)?;
    try_share_out(rt, &sheet, CHORES, model::SCRATCH_SIZE)
}

fn try_length(rt: &impl Print, size: usize) -> io::Result<()>
    requires { size ≤ 9 }
{
    let sheet = sheet_c();
    print!(rt; "length {size}")?;
    try_share_out(rt, &sheet[..size], CHORES, model::SCRATCH_SIZE)
}

fn try_list(rt: &impl Print, owners: &[u8], slack: u8, lent: usize) -> io::Result<()>
    requires { lent ≤ max_chores }
{
    let sheet = sheet_c();
    let mut dominating = [0u8; model::MAX_CHORES];
    print_list_verdict(
        rt,
        listcheck::check_list(&sheet, owners, slack, &mut dominating[..lent]),
    )
}

fn try_slack(rt: &impl Print, slack: u8) -> io::Result<()> {
    print!(rt; "slack {slack}")?;
    try_list(rt, &[2, 2, 1, 1, 2], slack, CHORES)
}

// Two faults at once.
fn try_slack_lent(rt: &impl Print, slack: u8, lent: usize) -> io::Result<()>
    requires { lent ≤ max_chores }
{
    print!(rt; "slack {slack} lent {lent}")?;
    try_list(rt, &[2, 2, 1, 1, 2], slack, lent)
}

fn try_owners(rt: &impl Print, count: usize) -> io::Result<()>
    requires { count ≤ 5 }
{
    let owners = [2u8, 2, 1, 1, 2];
    print!(rt; "owners {count}")?;
    try_list(rt, &owners[..count], 1, CHORES)
}

fn try_owner(rt: &impl Print, owner: u8) -> io::Result<()> {
    print!(rt; "owner {owner}")?;
    try_list(rt, &[2, 2, 1, 1, owner], 1, CHORES)
}

fn try_price(rt: &impl Print, price: u32) -> io::Result<()> {
    let sheet = sheet_c();
    let owners = [2u8, 2, 1, 1, 2];
    let prices = [3u32, 3, 3, 3, price];
    print!(rt; "price {price}")?;
    print_price_verdict(rt, pricecheck::check_prices(&sheet, &owners, &prices))
}

// A sheet that is found is shared out.
fn look_up(rt: &impl Print, book: &[u8], which: usize) -> io::Result<()> {
    match contents::find_sheet(book, which) {
        Ok(sheet) => {
            print!(rt; " of {} bytes", sheet.len())?;
            try_share_out(rt, sheet, CHORES, model::SCRATCH_SIZE)
        }
        Err(refusal) => print_refused(rt, refusal),
    }
}

// A book of C, from byte 9 on and of 9 bytes, and of a sheet of no bytes, which is no refused lookup.
fn try_lookup(rt: &impl Print, which: usize) -> io::Result<()> {
    let mut book = [0u8; 18];
    book[..9].copy_from_slice(&[2, 0, 9, 0, 9, 0, 18, 0, 0]);
    book[9..].copy_from_slice(&sheet_c());
    print!(rt; "sheet {which}")?;
    look_up(rt, &book, which)
}

fn main(rt: HostRuntime) -> io::Result<()> {
    try_limits(&rt)?;
    try_bit(&rt)?;
    try_length(&rt, 8)?;
    try_owners(&rt, 4)?;
    try_owner(&rt, 3)?;
    try_price(&rt, 0)?;
    try_lookup(&rt, 0)?;
    try_lookup(&rt, 1)?;
    try_lookup(&rt, 2)?;
    try_lookup(&rt, 3)
}
