// Reading a sheet: its header, its marks, and what it is turned down for. Agents and chores are counted from 0.
// All of it is read off the bytes, with the header's numbers beside: `Sheet::read` judges them so, before there is a `Sheet`, and the methods of one
// answer by the readers of a row and its marks, which also stand for those who have the bytes of a sheet alone.
#![tactic(auto)]

ghost use Rattle.std.specs.Prelude.{◌≡◌, ◌+◌, ◌*◌, ◌-◌, ◌≤◌, ◌<◌, cond, not, eqb, length, get_or};
ghost use Rattle.finite.specs.Lists.{word_at};
ghost use Rattle.finite.specs.Bits.{bit};
ghost use Rattle.finite.specs.Packed.{bytes_for};
ghost use Rattle.model.specs.Limits.{out_of_range};
ghost use Rattle.model.specs.Sheet.{header_size, agents_of, chores_of, easy_weight, difficult_weight, row_of, is_difficult, marks_easy, sheet_length, difficult_marks, all_difficult};
ghost use Rattle.model.specs.RefusalNumbers.{number_of};
ghost use Rattle.model.specs.Refusals.{◌or_else◌, ◌when◌, weights_fault, set_after, marks_fault, header_refusal, sheet_refusal, lent_refusal};
ghost use Rattle.sheet.specs.Readers.{Read, Whole, RowInSheet, InSheet};

pub mod valid;

use model::Refusal;

pub fn byte_at(bytes: &[u8], i: usize) -> u32
    requires { i < length bytes.now }
    ensures { Read (get_or bytes.now i 0) 256 result }
{
    bytes[i] as u32
}

// Two bytes, high byte first.
pub fn word_at(bytes: &[u8], i: usize) -> u32
    requires { i + 1 < length bytes.now }
    ensures { Read (word_at bytes.now i) 65536 result }
{
    let high = byte_at(bytes, i);
    let low = byte_at(bytes, i + 1);
    256 * high + low
}

pub fn agents(sheet: &[u8]) -> usize
    requires { header_size ≤ length sheet.now }
    ensures { Read (agents_of sheet.now) 256 result }
{
    byte_at(sheet, 0) as usize
}

pub fn chores(sheet: &[u8]) -> usize
    requires { header_size ≤ length sheet.now }
    ensures { Read (chores_of sheet.now) 65536 result }
{
    word_at(sheet, 1) as usize
}

pub fn easy_weight(sheet: &[u8]) -> u32
    requires { header_size ≤ length sheet.now }
    ensures { Read (easy_weight sheet.now) 65536 result }
{
    word_at(sheet, 3)
}

pub fn difficult_weight(sheet: &[u8]) -> u32
    requires { header_size ≤ length sheet.now }
    ensures { Read (difficult_weight sheet.now) 65536 result }
{
    word_at(sheet, 5)
}

// The bytes of a row of m marks.
pub fn row_size(m: usize) -> usize
    requires { m < 65536 }
    ensures { result ≡ bytes_for m }
{
    (m + 7) / 8
}

// Where agent i's row starts, with m chores.
pub fn row_start(m: usize, i: usize) -> usize
    requires m_bound { m < 65536 }
    requires i_bound { i < 256 }
    ensures { result ≡ header_size + i * bytes_for m }
{
    model::HEADER_SIZE + i * row_size(m)
}

// Agent i's marks, as a part of the sheet.
pub fn row(sheet: &[u8], m: usize, i: usize) -> &[u8]
    requires { RowInSheet sheet.now m i }
    ensures { result.now ≡ row_of sheet.now i }
{
    let start = row_start(m, i);
    let end = start + row_size(m);
    &sheet[start..end]
}

// Byte k of agent i's row.
pub fn row_byte(sheet: &[u8], m: usize, i: usize, k: usize) -> u8
    requires row_in_sheet { RowInSheet sheet.now m i }
    requires k_bound { k < bytes_for m }
    ensures { Read (get_or (row_of sheet.now i) k 0) 256 result }
{
    sheet[row_start(m, i) + k]
}

// The mark at place j of such a byte, the high bit first: 1 for a difficult mark, 0 for an easy one. Every mark is taken out of its byte here.
pub fn mark_in(byte: u8, j: usize) -> u8
    requires { j < 8 }
    ensures { result ≡ cond (bit byte (7 - j)) 1 0 }
{
    (byte >> (7 - j)) % 2
}

// Agent i's mark for chore c. The caller passes the number of chores, since a search asks for many marks of one sheet.
pub fn mark_at(sheet: &[u8], m: usize, i: usize, c: usize) -> u8
    requires { InSheet sheet.now m i c }
    ensures { result ≡ cond (is_difficult sheet.now i c) 1 0 }
{
    mark_in(row_byte(sheet, m, i, c / 8), c % 8)
}

pub fn marks_easy(sheet: &[u8], m: usize, i: usize, c: usize) -> bool
    requires { InSheet sheet.now m i c }
    ensures { result ≡ marks_easy sheet.now i c }
{
    mark_at(sheet, m, i, c) == 0
}

// Document 02, request 5: "The number of difficult marks in a row is told from its count of ones", over each byte. The bits after the last
// mark are 0.
pub fn difficult_marks(sheet: &[u8], m: usize, i: usize) -> usize
    requires { RowInSheet sheet.now m i }
    ensures { result ≡ difficult_marks sheet.now i }
{
    let mut count = 0;
    for k in 0..row_size(m) {
        count += row_byte(sheet, m, i, k).count_ones() as usize;
    }
    count
}

// Whether agent i marked every chore difficult.
pub fn all_difficult(sheet: &[u8], m: usize, i: usize) -> bool
    requires { RowInSheet sheet.now m i }
    ensures { result ≡ all_difficult sheet.now i }
{
    difficult_marks(sheet, m, i) == m
}

// Whether a bit after agent i's last mark is set: these are the low bits of its row's last byte.
fn set_after(sheet: &[u8], n: usize, m: usize, i: usize) -> bool
    requires whole { Whole sheet.now n m }
    requires i_lt_n { (i < n) × (n < 256) }
    ensures { result ≡ set_after m (row_of sheet.now i) }
{
    if m == 0 {
        return false;
    }
    let size = row_size(m);
    let last = sheet[row_start(m, i) + (size - 1)];
    last % (1u8 << (8 * size - m)) != 0
}

// Whether that is so in some row.
fn marks_fault(sheet: &[u8], n: usize, m: usize) -> bool
    requires whole { Whole sheet.now n m }
    requires n_bound { n < 256 }
    ensures { result ≡ marks_fault sheet.now }
{
    (0..n).any(|i| set_after(sheet, n, m, i))
}

// 0, or above the limit.
pub fn out_of_range(k: usize, limit: usize) -> bool
    ensures { result ≡ out_of_range limit k }
{
    k == 0 || k > limit
}

fn weights_fault(a: u32, b: u32) -> bool
    ensures { result ≡ weights_fault a b }
{
    a == 0 || (b <= a || b > model::MAX_WEIGHT)
}

fn admit_header(n: usize, m: usize, a: u32, b: u32) -> Result<(), Refusal>
    ensures { number_of result ≡ header_refusal n m a b }
{
    if out_of_range(n, model::MAX_AGENTS) {
        return Err(Refusal::Agents);
    }
    if m > model::MAX_CHORES {
        return Err(Refusal::Chores);
    }
    if weights_fault(a, b) {
        return Err(Refusal::Weights);
    }
    Ok(())
}

// The marks are read only where they are there.
fn admit_body(sheet: &[u8], n: usize, m: usize) -> Result<(), Refusal>
    requires read { Read (agents_of sheet.now) 256 n }
    requires read_2 { Read (chores_of sheet.now) 65536 m }
    ensures { number_of result ≡ 5 when not (eqb (length sheet.now) (sheet_length sheet.now)) or_else 4 when marks_fault sheet.now }
{
    if sheet.len() != row_start(m, n) {
        return Err(Refusal::Length);
    }
    if marks_fault(sheet, n, m) {
        return Err(Refusal::Marks);
    }
    Ok(())
}

// Whether a sheet breaks no rule, or the refusal of the first that it breaks.
pub fn admit_sheet(sheet: &[u8]) -> Result<(), Refusal>
    ensures { number_of result ≡ sheet_refusal sheet.now }
{
    if sheet.len() < model::HEADER_SIZE {
        return Err(Refusal::Length);
    }
    let n = agents(sheet);
    let m = chores(sheet);
    admit_header(n, m, easy_weight(sheet), difficult_weight(sheet))?;
    admit_body(sheet, n, m)
}

// Every call that is lent a list turns it down where it is too short.
pub fn admit_lent(needed: usize, lent: usize) -> Result<(), Refusal>
    ensures { number_of result ≡ lent_refusal needed lent }
{
    if lent < needed {
        return Err(Refusal::Lent);
    }
    Ok(())
}
