// The contents of a book: whether it keeps their rules (refusal 3), and where each body lies.
// Words: kind, count n, n pairs of a body's first word and its length, then the bodies without gaps.
#![tactic(auto)]

mod bodies;
mod kind;

ghost use Rattle.std.specs.Prelude.{◌≡◌, ◌&&◌, ◌+◌, ◌*◌, ◌≤◌, leb, length, get_or};
ghost use Rattle.book.specs.Book.{KINDS, kind, count, start_of, size_of, first_body, header_ok, bodies_ok, contents_ok};

pub use bodies::{Bodies, Book};
use entry::word;
pub use kind::{Kind, UnknownKind};

const MOST_BODIES: usize = 1024;

const MOST_WORDS: usize = 16384;

#[tactic(auto, unfolding(crate::specs::Book::kind))]
pub fn kind_of(book: &[u32]) -> u32
    ensures { result ≡ kind book.now }
{
    word(book, 0)
}

#[tactic(auto, unfolding(crate::specs::Book::count))]
pub fn count_of(book: &[u32]) -> usize
    ensures { result ≡ count book.now }
{
    word(book, 1) as usize
}

// Contents pair i: where body i starts, and how many words it has; a word past the book reads 0.
#[tactic(auto, unfolding(crate::specs::Book::start_of, crate::specs::Book::size_of))]
fn pair(book: &[u32], i: usize) -> (usize, usize)
    ensures { (result.0 ≡ start_of book.now i) × (result.1 ≡ size_of book.now i) }
{
    if book.len() / 2 <= i {
        return (0, 0);
    }
    let at = 2 + 2 * i;
    (word(book, at) as usize, word(book, at + 1) as usize)
}

// Where body i starts. For callers that want one body alone; the loops here and in bodies take the pairs in turn.
pub fn start_of(book: &[u32], i: usize) -> usize
    ensures { result ≡ start_of book.now i }
{
    pair(book, i).0
}

// How many words body i has.
pub fn size_of(book: &[u32], i: usize) -> usize
    ensures { result ≡ size_of book.now i }
{
    pair(book, i).1
}

#[tactic(auto, using(crate::specs::Kind::Laws::decodes))]
fn is_kind(number: u32) -> bool
    ensures { result ≡ (leb 1 number && leb number KINDS) }
{
    Kind::try_from(number).is_ok()
}

// The kind, the count and the room for the contents pairs.
#[tactic(auto, unfolding(crate::specs::Book::header_ok))]
fn header_ok(book: &[u32]) -> bool
    ensures { result ≡ header_ok book.now }
{
    let n = count_of(book);
    let sized = (2..=MOST_WORDS).contains(&book.len());
    sized && is_kind(kind_of(book)) && n <= MOST_BODIES && 2 + 2 * n <= book.len()
}

// The bodies of n contents pairs follow each other without gaps and end the book.
#[tactic(auto, using(crate::proofs::Laws::pair_apart, crate::proofs::Laws::pair_past, crate::proofs::Laws::pair_onward, crate::proofs::Laws::pair_few, crate::proofs::Laws::pairs_finished))]
fn bodies_ok(book: &[u32], n: usize) -> bool
    requires { (n ≤ 1024) × (first_body n ≤ length book.now) }
    ensures { result ≡ bodies_ok book.now n 0 (first_body n) }
{
    let mut at = 2 + 2 * n;
    let (pairs, _) = book[2..at].as_chunks::<2>();
    for &[start, size] in pairs {
        if start as usize != at {
            return false;
        }
        let k = size as usize;
        if book.len() - at < k {
            return false;
        }
        at += k;
    }
    at == book.len()
}

// Whether the book keeps the contents rules.
#[tactic(auto, using(crate::specs::Book::Laws::header), unfolding(crate::specs::Book::contents_ok))]
pub fn contents(book: &[u32]) -> bool
    ensures { result ≡ contents_ok book.now }
{
    if header_ok(book) {
        return bodies_ok(book, count_of(book));
    }
    false
}
