// One entry of a book, of whatever kind: its words, what it comes to and what it leaves to the next.
#![tactic(auto)]

ghost use Rattle.std.specs.Prelude.{◌≡◌, get_or};

use lines::Rva;

// What becomes of an entry that is not refused. x64 and ARM64 have no need of it: what is to be written is there, or it is not.
#[derive(Clone, Copy, PartialEq, Eq)]
pub enum Fate {
    Skip,
    Write,
}

// The last PDB entry that was not skipped: the next one that equals it in these is skipped. The type is a field of the body, 0 to 4, that is printed as it is.
#[derive(Clone, Copy, PartialEq, Eq)]
pub struct Last {
    pub ty: u32,
    pub start: Rva,
    pub code_size: u32,
    pub prolog_size: u32,
}

// An entry put into a slice: the place after its text, and what it leaves to the next.
#[derive(Clone, Copy)]
pub struct Wrote {
    pub at: usize,
    pub last: Option<Last>,
}

// The word at i, and 0 past the end.
pub fn word(words: &[u32], i: usize) -> u32
    ensures { result ≡ get_or words.now i 0 }
{
    words.get(i).copied().unwrap_or(0)
}
