// The kinds of books, by their numbers.
ghost use Rattle.book.specs.Kind.{Decodes};

use std::error::Error;
use std::fmt;

// What a book's unwind data is: each kind has bodies of its own.
#[derive(Clone, Copy, Debug, PartialEq, Eq)]
pub enum Kind {
    X64 = 1,
    Arm64 = 2,
    Dwarf = 3,
    Pdb = 4,
}

// A number that no kind has.
#[derive(Clone, Copy, Debug, PartialEq, Eq)]
pub struct UnknownKind(pub u32);

impl TryFrom<u32> for Kind {
    type Error = UnknownKind;

    ghost try_from_gives = { Decodes };

    fn try_from(number: u32) -> Result<Kind, UnknownKind> {
        match number {
            1 => Ok(Kind::X64),
            2 => Ok(Kind::Arm64),
            3 => Ok(Kind::Dwarf),
            4 => Ok(Kind::Pdb),
            _ => Err(UnknownKind(number)),
        }
    }
}

impl fmt::Display for UnknownKind {
    fn fmt<W: fmt::Write>(&self, f: &mut fmt::Formatter<W>) -> fmt::Result {
        write!(f, "no book has kind {}", self.0)
    }
}

impl Error for UnknownKind {}
