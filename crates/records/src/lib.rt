// Two books compared by their records: the way to see whether a rebuild changed any.
#![tactic(auto)]

ghost use Rattle.std.specs.Prelude.{◌≡◌};
ghost use Rattle.refusal.specs.Refusal.{answer_number};
ghost use Rattle.book.specs.Book.{kind};
ghost use Rattle.translate.specs.Outcome.{outcome};
ghost use Rattle.translate.specs.Sense.{sense};
ghost use Rattle.records.specs.Compare.{compared_of, Compares};

use book::kind_of;
use refusal::Refusal;

// Four answers, of which none is an error: there is no value beside them for an Option or a Result.
#[derive(Clone, Copy, PartialEq, Eq)]
pub enum Compared {
    Same,
    Different,
    OtherKind,
    Refused,
}

// What a call made of a book: whether it was refused, the book's kind, and its lines. The kind is the word of the book: one that is refused may have
// a number that no kind has.
#[derive(Clone, Copy)]
struct Made<'a> {
    answer: Result<(), Refusal>,
    kind: u32,
    text: &'a [u8],
}

#[tactic(auto, using(crate::specs::Compare::Laws::refused_number, crate::specs::Compare::Laws::done_number), unfolding(crate::specs::Compare::compared_of))]
fn compare(a: Made, b: Made) -> Compared
    ensures { result ≡ compared_of (answer_number a.entry.answer) (answer_number b.entry.answer) a.entry.kind b.entry.kind a.entry.text.now b.entry.text.now }
{
    if a.answer.is_err() || b.answer.is_err() {
        return Compared::Refused;
    }
    if a.kind != b.kind {
        return Compared::OtherKind;
    }
    if a.text == b.text {
        return Compared::Same;
    }
    Compared::Different
}

// Both books are translated; where neither is refused and the kinds are equal, the texts are compared.
// Eight parameters: as with text's writers, a struct for each book would hold lent buffers, of which the lender knows nothing afterwards.
pub fn same_records(
    book_a: &[u32],
    limit_a: u32,
    work_a: &mut [u8],
    text_a: &mut [u8],
    book_b: &[u32],
    limit_b: u32,
    work_b: &mut [u8],
    text_b: &mut [u8],
) -> Compared
    ensures { Compares (outcome book_a.now limit_a work_a.old text_a.old) (outcome book_b.now limit_b work_b.old text_b.old) (kind book_a.now) (kind book_b.now) (sense book_a.now limit_a) (sense book_b.now limit_b) work_a.new text_a.new work_b.new text_b.new result }
{
    let first = translate::translate(book_a, limit_a, work_a, text_a);
    let second = translate::translate(book_b, limit_b, work_b, text_b);
    let a = Made {
        answer: first.answer,
        kind: kind_of(book_a),
        text: &text_a[..first.length],
    };
    let b = Made {
        answer: second.answer,
        kind: kind_of(book_b),
        text: &text_b[..second.length],
    };
    compare(a, b)
}
