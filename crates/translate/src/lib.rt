// The call: every entry of a book in turn, through the work area into the text, with refusals 1 to 9.
#![tactic(auto)]

ghost use Rattle.std.specs.Prelude.{◌≡◌, ◌≤◌, length, replicate, Option};
ghost use Rattle.entry.specs.Entry.{Processed};
ghost use Rattle.book.specs.Kind.{kind_number};
ghost use Rattle.translate.specs.Outcome.{AREA, entry_of, walk_of, outcome, Called};
ghost use Rattle.translate.specs.Outcome.Laws.{Stepped, Ended};

use book::{Book, Kind};
use entry::{Last, Wrote};
use refusal::Refusal;
use text::{clear, put_front};

// The bytes of the work area that are used, and left zero.
const AREA: usize = 8192;

// The longest text of an entry.
const LONGEST: usize = 8192;

const MOST_LIMIT: u32 = 32;

// What a call returns: whether it was refused, the entries done (skipped ones included), and the length of their text.
#[derive(Clone, Copy)]
pub struct Returned {
    pub answer: Result<(), Refusal>,
    pub entries: usize,
    pub length: usize,
}

// After an entry: where the text goes on, and what the entry leaves to the next. Not entry's Wrote, whose place is in the work area.
#[derive(Clone, Copy)]
pub struct Next {
    pub used: usize,
    pub last: Option<Last>,
}

impl Returned {
    // Refused before the first entry.
    fn refused(refusal: Refusal) -> Returned
        ensures { result ≡ record { answer = Err refusal; entries = 0; length = 0 } }
    {
        Returned {
            answer: Err(refusal),
            entries: 0,
            length: 0,
        }
    }
}

// One entry of a book of this kind, put at `at`.
#[tactic(auto, unfolding(crate::specs::Outcome::entry_of))]
fn process(
    kind: Kind,
    limit: u32,
    last: Option<Last>,
    body: &[u32],
    out: &mut [u8],
    at: usize,
) -> Result<Wrote, Refusal>
    ensures { Processed (entry_of (kind_number kind) limit last body.now) out.old at out.new result }
{
    match kind {
        Kind::X64 => x64::process_pe(out, at, body, limit, last),
        Kind::Arm64 => arm64::process_pe_arm64(out, at, body, last),
        Kind::Dwarf => dwarf::process_fde(out, at, body, last),
        Kind::Pdb => pdb::process_pdb(out, at, body, last),
    }
}

// One entry through the work area into the text, behind what is used of it.
fn step(
    kind: Kind,
    limit: u32,
    body: &[u32],
    work: &mut [u8; AREA],
    text: &mut [u8],
    next: Next,
) -> Result<Next, Refusal>
    requires { next.used ≤ length text.old }
    ensures { Stepped (entry_of (kind_number kind) limit next.last body.now) text.old next.used text.new result }
{
    let wrote = process(kind, limit, next.last, body, work, 0)?;
    let size = wrote.at;
    if LONGEST < size {
        return Err(Refusal::Long);
    }
    if text.len() - next.used < size {
        return Err(Refusal::Room);
    }
    Ok(Next {
        used: put_front(text, next.used, work, size),
        last: wrote.last,
    })
}

// The entries in turn.
#[tactic(auto, using(crate::specs::Outcome::Laws::going_none, crate::specs::Outcome::Laws::going_more, book::specs::Book::Laws::contents_header, book::specs::Book::Laws::bodies_count))]
fn entries(book: Book<'_>, limit: u32, work: &mut [u8; AREA], text: &mut [u8]) -> Returned
    ensures { Ended (walk_of book.entry.words.now limit (length text.old)) text.old text.new result }
{
    let kind = book.kind();
    let mut next = Next {
        used: 0,
        last: None,
    };
    // Counted here: behind the loop an enumerate has no number.
    let mut entries = 0;
    for body in book.bodies() {
        match step(kind, limit, body, work, text, next) {
            Ok(after) => next = after,
            Err(refusal) => {
                return Returned {
                    answer: Err(refusal),
                    entries,
                    length: next.used,
                };
            }
        }
        entries += 1;
    }
    Returned {
        answer: Ok(()),
        entries,
        length: next.used,
    }
}

// The entries in turn, through a work area that is left clear.
fn run(book: Book<'_>, limit: u32, work: &mut [u8; AREA], text: &mut [u8]) -> Returned
    ensures ended { Ended (walk_of book.entry.words.now limit (length text.old)) text.old text.new result }
    ensures work_after { work.new ≡ replicate AREA 0 }
{
    let r = entries(book, limit, work, text);
    clear(work);
    r
}

// A book into STACK lines, under a chain limit.
pub fn translate(book: &[u32], limit: u32, work: &mut [u8], text: &mut [u8]) -> Returned
    ensures { Called (outcome book.now limit work.old text.old) work.new text.new result }
{
    let Some(work) = work.first_chunk_mut::<AREA>() else {
        return Returned::refused(Refusal::Work);
    };
    if MOST_LIMIT < limit {
        return Returned::refused(Refusal::Limit);
    }
    match Book::read(book) {
        Ok(book) => run(book, limit, work, text),
        Err(refusal) => Returned::refused(refusal),
    }
}
