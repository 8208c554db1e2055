// The parts one after the other: counted, with refusals 10, 11 and 4, and put.
ghost use Rattle.std.specs.Prelude.{◌≡◌, ◌+◌, ◌*◌, ◌^◌, ◌≤◌, ◌<◌, leb, length, IfOk, IfErr};
ghost use Rattle.std.specs.Iterator.{YieldsFirstBy, item_count};
ghost use Rattle.text.specs.Text.{Put};
ghost use Rattle.refusal.specs.Refusal.{number};
ghost use Rattle.unwind_info.specs.UnwindInfo.{infos_words, parts as parts_of, first_refused, x64_number};

use crate::part::Part;
use refusal::Refusal;
use x64::{BODY_HEAD, INFO_HEAD, OP_WORDS};

const MOST_PARTS: usize = 32;

// Bytes whose parts are all of version 1 and there.
#[derive(Clone, Copy)]
struct Parts<'a> {
    bytes: &'a [u8],
    ghost whole: { first_refused (parts_of bytes.now) ≡ 0 },
}

impl<'a> Iterator for Parts<'a> {
    type Item = Part<'a>;

    ghost next_gives = { YieldsFirstBy (λ x. x.bytes.now) (λ s. parts_of s.bytes.now) };

    ghost remaining = { item_count (λ s. parts_of s.bytes.now) };

    #[tactic(auto, using(crate::proofs::Loops::first_there, crate::proofs::Loops::behind_good, crate::specs::Index::parts_first, crate::proofs::Loops::no_parts))]
    fn next(&mut self) -> Option<Part<'a>> {
        if self.bytes.is_empty() {
            return None;
        }
        let part = Part { bytes: self.bytes };
        self.bytes = part.behind();
        Some(part)
    }
}

// Bytes of 1 to 32 such parts: how many, and how many slots these count.
#[derive(Clone, Copy)]
pub(crate) struct Infos<'a> {
    pub bytes: &'a [u8],
    pub parts: usize,
    pub slots: usize,
    ghost whole: { first_refused (parts_of bytes.now) ≡ 0 },
    ghost counted: { parts ≡ length (parts_of bytes.now) },
    ghost few: { parts ≤ 32 },
    ghost slots_few: { slots ≤ 8160 },
    ghost most: { length (infos_words (parts_of bytes.now)) ≤ 3 * parts + 3 * slots },
}

impl<'a> Infos<'a> {
    // Part by part to the end of the bytes, then their number.
    pub(crate) fn read(bytes: &'a [u8]) -> Result<Infos<'a>, Refusal>
        ensures ok { IfOk result (λ infos. (infos.bytes.now ≡ bytes.now) × (x64_number bytes.now ≡ 0)) }
        ensures err { IfErr result (λ r. number r ≡ x64_number bytes.now) }
    {
        let mut rest = bytes;
        let mut parts = 0;
        let mut slots = 0;
        // No `for`: an iterator of parts that may be refused would stand for this one loop alone
        while !rest.is_empty() {
            let part = Part::read(rest)?;
            slots += part.slot_count();
            parts += 1;
            rest = part.behind();
        }
        match parts {
            1..=MOST_PARTS => Ok(Infos {
                bytes,
                parts,
                slots,
            }),
            _ => Err(Refusal::Layout),
        }
    }

    // The parts, one after the other.
    fn parts(self) -> Parts<'a>
        ensures { result.bytes.now ≡ self.entry.bytes.now }
    {
        Parts { bytes: self.bytes }
    }

    // The words that the body has at most: four, three for each part, and three for each slot.
    fn most_words(self) -> usize
        ensures { result ≡ 4 + 3 * self.entry.parts + 3 * self.entry.slots }
    {
        BODY_HEAD + INFO_HEAD * self.parts + OP_WORDS * self.slots
    }

    // How many it has.
    #[tactic(auto, using(crate::proofs::Loops::infos_none))]
    fn count_words(self) -> usize
        ensures { result ≡ 4 + length (infos_words (parts_of self.entry.bytes.now)) }
    {
        let mut words = BODY_HEAD;
        for part in self.parts() {
            words += part.count_words();
        }
        words
    }

    // Whether that room is long enough. Where the counts do not tell, the body's words are counted.
    pub(crate) fn fits(self, room: usize) -> bool
        ensures { result ≡ leb (4 + length (infos_words (parts_of self.entry.bytes.now))) room }
    {
        self.most_words() <= room || self.count_words() <= room
    }

    // The infos, in a room that is long enough: `fits` says so, once for all of them.
    #[tactic(auto, using(fill::specs::Fill::Laws::fitting_all))]
    pub(crate) fn put(self, out: &mut [u32], at: usize) -> usize
        requires { at + length (infos_words (parts_of self.bytes.now)) ≤ length out.old }
        ensures { Put out.old at (infos_words (parts_of self.entry.bytes.now)) out.new result }
    {
        let mut p = at;
        for part in self.parts() {
            p = part.put(out, p);
        }
        p
    }
}
