// Why a call turns its work down.
#![tactic(auto)]

ghost use Rattle.std.specs.Prelude.{◌≡◌, Some};
ghost use Rattle.refusal.specs.Refusal.{number, answer_number};

use std::fmt;

// The refusals, by their numbers of docs/BOOK.md.
#[derive(Clone, Copy, PartialEq, Eq)]
pub enum Refusal {
    // the work area is too short
    Work = 1,
    // the limit is too high
    Limit = 2,
    // the book breaks the contents rules
    Contents = 3,
    // a body breaks its layout or a range
    Layout = 4,
    // an x64 chain is longer than the limit
    Chain = 5,
    // a number is out of reach
    Reach = 6,
    // an x64 chain sets a frame register twice
    Frame = 7,
    // an entry's text is too long
    Long = 8,
    // the text buffer's rest is too short for it
    Room = 9,
    // a part of the unwind bytes has another version than 1
    Version = 10,
    // the unwind bytes end inside a part
    Truncated = 11,
    // the bytes end inside an unwind code
    Code = 12,
}

impl Refusal {
    // Not From: contracts name the number.
    pub fn number(self) -> u32
        ensures { result ≡ number self }
    {
        self as u32
    }
}

// A refusal is shown as its number.
impl fmt::Display for Refusal {
    fn fmt<W: fmt::Write>(&self, f: &mut fmt::Formatter<W>) -> fmt::Result {
        write!(f, "{}", self.number())
    }
}

// What a call answers in a number: 0 where it was not turned down.
pub fn answer_number<T: Copy>(answer: Result<T, Refusal>) -> u32
    ensures { result ≡ answer_number answer }
{
    match answer {
        Ok(_) => 0,
        Err(refusal) => refusal.number(),
    }
}
