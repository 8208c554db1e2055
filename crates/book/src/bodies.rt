// A book that keeps the contents rules, and its bodies in order.
ghost use Rattle.std.specs.Prelude.{◌≡◌, true};
ghost use Rattle.std.specs.List.{list_all};
ghost use Rattle.std.specs.Iterator.{YieldsFirstRef, item_count};
ghost use Rattle.book.specs.Book.{contents_ok};
ghost use Rattle.book.specs.Pairs.{is_inside};

use crate::{Kind, contents, count_of, kind_of};
use refusal::Refusal;

// The words of a book that keeps the contents rules.
#[derive(Clone, Copy)]
pub struct Book<'a> {
    pub words: &'a [u32],
    pub ghost kept: { contents_ok words.now ≡ true },
}

// The bodies that are left of a book's words, by their contents pairs: where each starts, and how many words it has.
#[derive(Clone, Copy)]
pub struct Bodies<'a> {
    pub words: &'a [u32],
    pub pairs: &'a [[u32; 2]],
    pub ghost inside: { list_all (is_inside words.now) pairs.now ≡ true },
}

impl<'a> Book<'a> {
    ghost use Rattle.book.specs.Book.{kind, bodies};
    ghost use Rattle.book.specs.Kind.{kind_number};
    ghost use Rattle.book.specs.Bodies.{Reads, left};

    // Refused 3 where the words break the rules.
    pub fn read(words: &'a [u32]) -> Result<Book<'a>, Refusal>
        ensures { Reads words.now result }
    {
        if contents(words) {
            return Ok(Book { words });
        }
        Err(Refusal::Contents)
    }

    // One of the four: the rules ask for it. Read anew: a Book with its kind beside would keep one fact more, for one caller.
    #[tactic(auto, using(crate::specs::Kind::Laws::has_kind))]
    pub fn kind(self) -> Kind
        ensures { kind_number result ≡ kind self.entry.words.now }
    {
        let Ok(kind) = Kind::try_from(kind_of(self.words)) else {
            unreachable!()
        };
        kind
    }

    // Every body, in order.
    #[tactic(auto, using(crate::specs::Book::Laws::contents_header))]
    pub fn bodies(self) -> Bodies<'a>
        ensures { left result ≡ bodies self.entry.words.now }
    {
        let (pairs, _) = self.words[2..].as_chunks();
        let pairs = &pairs[..count_of(self.words)];
        Bodies {
            words: self.words,
            pairs,
        }
    }
}

impl<'a> Iterator for Bodies<'a> {
    type Item = &'a [u32];

    ghost use Rattle.book.specs.Bodies.{left};

    ghost next_gives = { YieldsFirstRef left };

    ghost remaining = { item_count left };

    #[tactic(auto, using(crate::specs::Pairs::Laws::pair_inside))]
    fn next(&mut self) -> Option<&'a [u32]> {
        let (&[start, size], behind) = self.pairs.split_first()?;
        self.pairs = behind;
        let start = start as usize;
        Some(&self.words[start..start + size as usize])
    }
}
