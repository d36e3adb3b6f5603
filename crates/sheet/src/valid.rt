// A sheet that breaks no rule, with what its header says of its size.
ghost use Rattle.std.specs.Prelude.{◌≡◌, ◌<◌, List, ℕ, cond, IfOk, get_or};
ghost use Rattle.finite.specs.Packed.{bytes_for};
ghost use Rattle.model.specs.Sheet.{agents_of, chores_of, easy_weight, difficult_weight, row_of, is_difficult, marks_easy, difficult_marks, all_difficult};
ghost use Rattle.model.specs.RefusalNumbers.{number_of};
ghost use Rattle.model.specs.Refusals.{sheet_refusal};
ghost use Rattle.sheet.specs.Valid.{Valid};
ghost use Rattle.sheet.specs.Readers.{SheetRead};

use model::Refusal;
use std::marker::Model;

#[derive(Drop)]
pub struct Sheet<'a> {
    bytes: &'a [u8],
    agents: usize,
    chores: usize,
}

impl<'a> Model for Sheet<'a> {
    ghost Value = { List ℕ };

    ghost view = { λ s. s.bytes.now };

    ghost invariant = { λ s. SheetRead s.bytes.now s.agents s.chores };
}

impl<'a> Sheet<'a> {
    // What a sheet is turned down for is that of the first rule that it breaks.
    pub fn read(bytes: &'a [u8]) -> Result<Sheet<'a>, Refusal>
        ensures number { number_of result ≡ sheet_refusal bytes.now }
        ensures same { IfOk result (λ sheet. sheet ≡ bytes.now) }
    {
        crate::admit_sheet(bytes)?;
        Ok(Sheet {
            bytes,
            agents: crate::agents(bytes),
            chores: crate::chores(bytes),
        })
    }

    pub fn agents(&self) -> usize
        ensures is { result ≡ agents_of self.now }
        ensures valid { Valid self.now }
    {
        self.agents
    }

    pub fn chores(&self) -> usize
        ensures is { result ≡ chores_of self.now }
        ensures valid { Valid self.now }
    {
        self.chores
    }

    pub fn easy_weight(&self) -> u32
        ensures { result ≡ easy_weight self.now }
    {
        crate::easy_weight(self.bytes)
    }

    pub fn difficult_weight(&self) -> u32
        ensures { result ≡ difficult_weight self.now }
    {
        crate::difficult_weight(self.bytes)
    }

    // Agent i's marks, as a part of the sheet.
    pub fn row(&self, i: usize) -> &'a [u8]
        requires { i < agents_of self.now }
        ensures { result.now ≡ row_of self.now i }
    {
        crate::row(self.bytes, self.chores, i)
    }

    // Byte k of agent i's row.
    pub fn row_byte(&self, i: usize, k: usize) -> u8
        requires agent { i < agents_of self.now }
        requires byte { k < bytes_for (chores_of self.now) }
        ensures { result ≡ get_or (row_of self.now i) k 0 }
    {
        crate::row_byte(self.bytes, self.chores, i, k)
    }

    // Agent i's mark for chore c: 1 for a difficult one, 0 for an easy one.
    pub fn mark(&self, i: usize, c: usize) -> u8
        requires agent { i < agents_of self.now }
        requires chore { c < chores_of self.now }
        ensures { result ≡ cond (is_difficult self.now i c) 1 0 }
    {
        crate::mark_at(self.bytes, self.chores, i, c)
    }

    pub fn is_easy(&self, i: usize, c: usize) -> bool
        requires agent { i < agents_of self.now }
        requires chore { c < chores_of self.now }
        ensures { result ≡ marks_easy self.now i c }
    {
        crate::marks_easy(self.bytes, self.chores, i, c)
    }

    pub fn difficult_marks(&self, i: usize) -> usize
        requires { i < agents_of self.now }
        ensures { result ≡ difficult_marks self.now i }
    {
        crate::difficult_marks(self.bytes, self.chores, i)
    }

    // Whether agent i marked every chore difficult.
    pub fn all_difficult(&self, i: usize) -> bool
        requires { i < agents_of self.now }
        ensures { result ≡ all_difficult self.now i }
    {
        crate::all_difficult(self.bytes, self.chores, i)
    }
}
