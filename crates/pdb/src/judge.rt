// What becomes of a PDB entry: refused by 4, skipped, refused by 6, or written.
ghost use Rattle.std.specs.Prelude.{◌≡◌, ◌&&◌, false, MatchOption};
ghost use Rattle.text.specs.Tests.{all};
ghost use Rattle.pdb.specs.Pdb.{printable, apart, ranges_fit, sizes_fit, flags_fit, length_fits, counts_fit, pdb_layout, pdb_skipped, in_reach, pdb_judged};
ghost use Rattle.pdb.specs.Index.{ranges_of};

use crate::Range;
use crate::body::{
    BASE_POINTER_AT, Body, CODE_SIZE_AT, CODE_START_AT, CODES_AT, LENGTH_AT, MAX_STACK_MARK_AT,
    PROGRAM_MARK_AT, PROLOG_SIZE_AT, PROLOGS_AT, RANGES_AT, SAVED_AT, SPACE, TABLE_MARK_AT,
    TYPE_AT, has_program,
};
use entry::{Fate, Last, word};
use lines::Rva;
use refusal::Refusal;

// The largest that a body may have (docs/BOOK.md).
const MOST_TYPE: u32 = 4;

const MOST_16_BITS: u32 = u16::MAX as u32;

const MOST_RANGES: u32 = 16;

const MOST_BYTES: u32 = 1024;

const TILDE: u32 = 126;

// Larger code sizes are skipped.
const MOST_CODE_SIZE: u32 = 0x7fff_ffff;

// ---- refusal 4

// Type, prolog size and saved registers.
#[tactic(auto, unfolding(crate::specs::Pdb::sizes_fit))]
fn sizes_fit(words: &[u32]) -> bool
    ensures { result ≡ sizes_fit words.now }
{
    word(words, TYPE_AT) <= MOST_TYPE
        && word(words, PROLOG_SIZE_AT) <= MOST_16_BITS
        && word(words, SAVED_AT) <= MOST_16_BITS
}

// The marks are 0 or 1, and so is the base pointer's word.
#[tactic(auto, unfolding(crate::specs::Pdb::flags_fit))]
fn flags_fit(words: &[u32]) -> bool
    ensures { result ≡ flags_fit words.now }
{
    word(words, MAX_STACK_MARK_AT) <= 1
        && word(words, BASE_POINTER_AT) <= 1
        && word(words, PROGRAM_MARK_AT) <= 1
        && word(words, TABLE_MARK_AT) <= 1
}

// A program's length is 0 where there is none, or no table.
#[tactic(auto, unfolding(crate::specs::Pdb::length_fits))]
fn length_fits(words: &[u32]) -> bool
    ensures { result ≡ length_fits words.now }
{
    let most = if has_program(words) { MOST_BYTES } else { 0 };
    word(words, LENGTH_AT) <= most
}

// How many ranges there are, and how long the program is.
#[tactic(auto, unfolding(crate::specs::Pdb::counts_fit))]
fn counts_fit(words: &[u32]) -> bool
    ensures { result ≡ counts_fit words.now }
{
    word(words, PROLOGS_AT) <= MOST_RANGES
        && word(words, CODES_AT) <= MOST_RANGES
        && length_fits(words)
}

// None of the ranges starts at `start`.
fn starts_apart(start: Rva, ranges: &[[u32; 2]]) -> bool
    ensures { result ≡ apart start.0 (ranges_of ranges.now) }
{
    ranges.iter().all(|r| Range::from(*r).start != start)
}

// No range ends before it starts, and their starts differ.
#[tactic(auto, using(crate::specs::Index::turned_fits, crate::specs::Index::alike_fits, crate::specs::Index::rest_fit))]
fn ranges_fit(mut ranges: &[[u32; 2]]) -> bool
    ensures { result ≡ ranges_fit (ranges_of ranges.now) }
{
    // Not a `for` or `all`: each turn needs the ranges that are behind, too.
    while let Some((first, others)) = ranges.split_first() {
        let range = Range::from(*first);
        if range.end.0 < range.start.0 {
            return false;
        }
        if !starts_apart(range.start, others) {
            return false;
        }
        ranges = others;
    }
    true
}

#[tactic(auto, unfolding(crate::specs::Pdb::printable))]
fn is_printable(b: u32) -> bool
    ensures { result ≡ printable b }
{
    (SPACE..=TILDE).contains(&b)
}

// Each word is a byte of a program. Not `all`, which ends early, so that no two words are tested at once: by it a word of real PDB books takes 16.4
// instructions in place of 13.0.
fn bytes_fit(program: &[u32]) -> bool
    ensures { result ≡ all printable program.now }
{
    program.iter().fold(true, |fit, b| fit & is_printable(*b))
}

// The first words fit.
fn head_fits(words: &[u32]) -> bool
    ensures { result ≡ (sizes_fit words.now && (flags_fit words.now && counts_fit words.now)) }
{
    sizes_fit(words) && flags_fit(words) && counts_fit(words)
}

// What follows them fits.
fn parts_fit(prologs: &[[u32; 2]], codes: &[[u32; 2]], program: &[u32]) -> bool
    ensures { result ≡ (ranges_fit (ranges_of prologs.now) && (ranges_fit (ranges_of codes.now) && all printable program.now)) }
{
    ranges_fit(prologs) && ranges_fit(codes) && bytes_fit(program)
}

impl<'a> Body<'a> {
    // The body of these words; none where refusal 4 applies: ranges of words, and exactly the words that the counts demand.
    #[tactic(auto, using(crate::specs::Index::head_broken, crate::specs::Index::layout_by, crate::specs::Index::rest_broken, crate::specs::Index::rest_by, crate::specs::Index::prologs_part, crate::specs::Index::codes_part, crate::specs::Index::program_part))]
    pub(crate) fn read(words: &'a [u32]) -> Option<Body<'a>>
        ensures { MatchOption result (pdb_layout words.now ≡ false) (λ body. body.words.now ≡ words.now) }
    {
        if !head_fits(words) {
            return None;
        }
        let codes_at = RANGES_AT + 2 * word(words, PROLOGS_AT) as usize;
        let program_at = codes_at + 2 * word(words, CODES_AT) as usize;
        let end = program_at + word(words, LENGTH_AT) as usize;
        if end != words.len() {
            return None;
        }
        let (prologs, _) = words[RANGES_AT..codes_at].as_chunks();
        let (codes, _) = words[codes_at..program_at].as_chunks();
        let program = &words[program_at..];
        if !parts_fit(prologs, codes, program) {
            return None;
        }
        Some(Body {
            words,
            prologs,
            codes,
            program,
        })
    }

    // ---- skipping and refusal 6

    // A code size near the largest number is no size: such entries stand near the end of a function's code, and nobody says what they mean.
    // And the frame table often has series of entries that are alike: only the first of them is written.
    #[tactic(auto, unfolding(crate::specs::Pdb::pdb_skipped, crate::specs::Pdb::repeats))]
    fn skipped(self, last: Option<Last>) -> bool
        ensures { result ≡ pdb_skipped last self.entry.words.now }
    {
        MOST_CODE_SIZE < word(self.words, CODE_SIZE_AT) || last == Some(self.own())
    }

    // Refusal 6 does not apply: the prolog and the code end within 32 bits.
    #[tactic(auto, unfolding(crate::specs::Pdb::in_reach))]
    fn reach(self) -> bool
        ensures { result ≡ in_reach self.entry.words.now }
    {
        let start = word(self.words, CODE_START_AT);
        let code_size = word(self.words, CODE_SIZE_AT);
        let prolog_size = word(self.words, PROLOG_SIZE_AT);
        start.checked_add(prolog_size).is_some() && start.checked_add(code_size).is_some()
    }

    // What becomes of an entry whose layout fits: refused by 6, skipped, or written.
    #[tactic(auto, unfolding(crate::specs::Pdb::pdb_judged))]
    pub(crate) fn judge(self, last: Option<Last>) -> Result<Fate, Refusal>
        ensures { result ≡ pdb_judged last self.entry.words.now }
    {
        if self.skipped(last) {
            return Ok(Fate::Skip);
        }
        if !self.reach() {
            return Err(Refusal::Reach);
        }
        Ok(Fate::Write)
    }
}
