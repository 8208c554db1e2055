// What the words of a PDB body hold (docs/BOOK.md). A mark is 1 where there is one, else 0:
//
//     0 type                      8 max stack
//     1 code start                9 base pointer, 0 or 1
//     2 code size                 10 mark of a program
//     3 prolog size, 16 bits      11 mark of a string table
//     4 params                    12 prolog range count, at most 16
//     5 saved registers, 16 bits  13 code range count, at most 16
//     6 locals                    14 program length, at most 1,024
//     7 mark of a max stack       15 prolog ranges, code ranges (start, end), program bytes, one a word
ghost use Rattle.std.specs.Prelude.{◌≡◌, T, eqb, unwrap_or};
ghost use Rattle.entry.specs.Entry.{word as word_of};
ghost use Rattle.pdb.specs.Pdb.{prologs as prologs_of, codes as codes_of, program as program_of, has_program, pdb_layout, leaves, max_stack};
ghost use Rattle.pdb.specs.Index.{ranges_of, ranges_in, info_of};

use crate::{Line, Part};
use entry::{Last, word};
use lines::{Rva, StackInfo};

// Where the words stand. By place: of the head's fifteen words each test reads a few, and a struct would name all of them a second time.
pub(crate) const TYPE_AT: usize = 0;

pub(crate) const CODE_START_AT: usize = 1;

pub(crate) const CODE_SIZE_AT: usize = 2;

pub(crate) const PROLOG_SIZE_AT: usize = 3;

const PARAMS_AT: usize = 4;

pub(crate) const SAVED_AT: usize = 5;

const LOCALS_AT: usize = 6;

pub(crate) const MAX_STACK_MARK_AT: usize = 7;

const MAX_STACK_AT: usize = 8;

pub(crate) const BASE_POINTER_AT: usize = 9;

pub(crate) const PROGRAM_MARK_AT: usize = 10;

pub(crate) const TABLE_MARK_AT: usize = 11;

pub(crate) const PROLOGS_AT: usize = 12;

pub(crate) const CODES_AT: usize = 13;

pub(crate) const LENGTH_AT: usize = 14;

// Prolog ranges, code ranges and the program's bytes follow.
pub(crate) const RANGES_AT: usize = 15;

// A program's bytes are printable ASCII, from a space to a tilde.
pub(crate) const SPACE: u32 = 32;

// A body whose layout fits, and what follows its first words.
#[derive(Clone, Copy)]
pub(crate) struct Body<'a> {
    pub words: &'a [u32],
    pub prologs: &'a [[u32; 2]],
    pub codes: &'a [[u32; 2]],
    pub program: &'a [u32],
    ghost fits: { T (pdb_layout words.now) },
    ghost prologs_are: { ranges_of prologs.now ≡ prologs_of words.now },
    ghost codes_are: { ranges_of codes.now ≡ codes_of words.now },
    ghost program_is: { program.now ≡ program_of words.now },
}

impl<'a> Body<'a> {
    // The ranges of a part.
    pub(crate) fn ranges(self, part: Part) -> &'a [[u32; 2]]
        ensures { ranges_of result.now ≡ ranges_in self.entry.words.now part }
    {
        match part {
            Part::Prolog => self.prologs,
            Part::Code => self.codes,
        }
    }

    // The max stack, where there is one.
    #[tactic(auto, unfolding(crate::specs::Pdb::max_stack))]
    pub(crate) fn max_stack(self) -> Option<u32>
        ensures { unwrap_or result 0 ≡ max_stack self.entry.words.now }
    {
        marked(self.words, MAX_STACK_MARK_AT).then(|| word(self.words, MAX_STACK_AT))
    }

    // The four words that tell one entry from the next.
    #[tactic(auto, unfolding(crate::specs::Pdb::leaves))]
    pub(crate) fn own(self) -> Last
        ensures { result ≡ leaves self.entry.words.now }
    {
        Last {
            ty: word(self.words, TYPE_AT),
            start: Rva(word(self.words, CODE_START_AT)),
            code_size: word(self.words, CODE_SIZE_AT),
            prolog_size: word(self.words, PROLOG_SIZE_AT),
        }
    }

    // The numbers of a line.
    #[tactic(auto, unfolding(crate::specs::Index::info_of))]
    pub(crate) fn stack_info(self, line: Line) -> StackInfo
        ensures { result ≡ info_of self.entry.words.now line.range.start.0 line.range.end.0 line.prolog_size }
    {
        StackInfo {
            ty: word(self.words, TYPE_AT),
            start: line.range.start,
            code_size: line.range.size(),
            prolog_size: line.prolog_size,
            epilog_size: 0,
            params_size: word(self.words, PARAMS_AT),
            saved_regs_size: word(self.words, SAVED_AT),
            locals_size: word(self.words, LOCALS_AT),
            max_stack_size: self.max_stack().unwrap_or(0),
        }
    }
}

// Whether a mark is there. As the tests of judge, of the words and not of a Body: refusal 4 asks before there is one.
pub(crate) fn marked(words: &[u32], at: usize) -> bool
    ensures { result ≡ eqb (word_of words.now at) 1 }
{
    word(words, at) == 1
}

// Whether there is a program, and the table that it stands in.
#[tactic(auto, unfolding(crate::specs::Pdb::has_program))]
pub(crate) fn has_program(words: &[u32]) -> bool
    ensures { result ≡ has_program words.now }
{
    marked(words, PROGRAM_MARK_AT) && marked(words, TABLE_MARK_AT)
}
