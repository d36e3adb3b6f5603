// The answers of the public calls. What each of them says is defined in specs/.
#![tactic(auto)]

ghost use Rattle.std.specs.Prelude.{◌≡◌, length};
ghost use Rattle.model.specs.RefusalNumbers.{refusal_number, number_of};

use std::fmt;

// What a call is turned down for. Its number is the documents'.
#[derive(Clone, Copy, Debug, PartialEq, Eq)]
pub enum Refusal {
    Agents = 1,
    Chores = 2,
    Weights = 3,
    Marks = 4,
    Length = 5,
    OwnerCount = 6,
    Owner = 7,
    // A list that is lent is too short.
    Lent = 8,
    // A book against its rule, or a sheet, person or chore that isn't there.
    NotThere = 9,
    Prices = 10,
    Record = 11,
    Strands = 12,
    Slack = 13,
    Multiple = 14,
}

impl From<Refusal> for u8 {
    ghost from_gives = { λ refusal number. number ≡ refusal_number refusal };

    fn from(refusal: Refusal) -> u8 {
        refusal as u8
    }
}

// Its number is all that is told of a refusal.
impl fmt::Display for Refusal {
    fn fmt<W: fmt::Write>(&self, f: &mut fmt::Formatter<W>) -> fmt::Result {
        write!(f, "{}", u8::from(*self))
    }
}

// The number for C, 0 where nothing was refused.
pub fn number_of(answer: Result<(), Refusal>) -> u8
    ensures { result ≡ number_of answer }
{
    match answer {
        Ok(()) => 0,
        Err(refusal) => u8::from(refusal),
    }
}

// Copies bytes one by one: for the slice's own method the archive would ask the C library for `memmove`, which it does not.
pub fn copy_bytes(from: &[u8], to: &mut [u8])
    requires { length from.now ≡ length to.old }
    ensures { to.new ≡ from.now }
{
    for (i, &byte) in from.iter().enumerate() {
        to[i] = byte;
    }
}

// The share-out of one sheet.
#[derive(Clone, Copy)]
pub struct ShareOut {
    pub moves: u64,
    pub cuts: u8,
}

// The list check. With `Wasteful` a dominating list is in the lent list.
#[derive(Clone, Copy)]
pub enum ListVerdict {
    Holds,
    Unfair(u8, u8),
    Wasteful,
}

// The price check.
#[derive(Clone, Copy)]
pub enum PriceVerdict {
    OffPrice(u16),
    PriceEnvy(u8, u8),
    Accepted,
}

// One sheet of a book, shared out from entry `first` of the long lists on.
#[derive(Clone, Copy)]
pub struct SheetShare {
    pub moves: u64,
    pub cuts: u8,
    pub first: usize,
}

// The running tally of moves and cuts.
#[derive(Clone, Copy)]
pub struct Tally {
    pub moves: u64,
    pub cuts: u64,
}

// A whole book: what its sheets came to, and nothing for a sheet that it does not have.
#[derive(Clone, Copy)]
pub struct BookResult {
    pub count: u8,
    pub sheets: [Option<Result<SheetShare, Refusal>>; MAX_SHEETS],
    pub tally: Tally,
}

// The bytes of a sheet before its marks, as in specs/Sheet.antt.
pub const HEADER_SIZE: usize = 7;

// The bytes of a move in a record, as in specs/Record.antt.
pub const MOVE_SIZE: usize = 6;

// The documents' limits, in the code's types; specs/Limits.antt has the same numbers.
pub const MAX_AGENTS: usize = 32;

pub const MAX_CHORES: usize = 4000;

pub const MAX_WEIGHT: u32 = 1000;

pub const MAX_PRICE: u32 = 1000000;

pub const SCRATCH_SIZE: usize = 64;

pub const MAX_SHEETS: usize = 16;

pub const MAX_BOOK: usize = 65535;

pub const BOOK_ENTRIES: usize = 64000;

pub const MAX_SLACK: u8 = 8;
