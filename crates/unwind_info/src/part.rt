// A part: its header, and its slots.
ghost use Rattle.std.specs.Prelude.{◌≡◌, ◌+◌, ◌<◌, ◌≤◌, length, drop, IfOk, IfErr};
ghost use Rattle.text.specs.Text.{Put};
ghost use Rattle.refusal.specs.Refusal.{number};
ghost use Rattle.unwind_info.specs.UnwindInfo.{slot_count, frame_register, frame_offset, part_size, part_number, codes_of, info_words};
ghost use Rattle.unwind_info.specs.Index.{operations};

use crate::Operation::PushNonVolatile;
use crate::code::{Operations, SLOT};
use fill::{put_words, set_word};
use refusal::Refusal;
use x64::{INFO_HEAD, OP_WORDS};

const HEADER: usize = 4;

const VERSION: u8 = 1;

// A part that is all there, the header and the slots that it counts, and what stands behind it.
#[derive(Clone, Copy)]
pub(crate) struct Part<'a> {
    pub bytes: &'a [u8],
    ghost whole: { part_size bytes.now ≤ length bytes.now },
}

impl<'a> Part<'a> {
    // The part that these bytes start with: 10 where it is of another version, 11 where they end inside it.
    #[tactic(auto, unfolding(crate::specs::UnwindInfo::part_number))]
    pub(crate) fn read(bytes: &'a [u8]) -> Result<Part<'a>, Refusal>
        ensures ok { IfOk result (λ p. (p.bytes.now ≡ bytes.now) × (part_number bytes.now ≡ 0)) }
        ensures err { IfErr result (λ r. number r ≡ part_number bytes.now) }
    {
        // no byte is of no version
        if bytes.first().copied().unwrap_or(0) % 8 != VERSION {
            return Err(Refusal::Version);
        }
        let [_, _, slots, _, ..] = *bytes else {
            return Err(Refusal::Truncated);
        };
        if bytes.len() < HEADER + SLOT * usize::from(slots) {
            return Err(Refusal::Truncated);
        }
        Ok(Part { bytes })
    }

    pub(crate) fn slot_count(self) -> usize
        ensures { (result ≡ slot_count self.entry.bytes.now) × (result < 256) }
    {
        usize::from(self.bytes[2])
    }

    fn frame_register(self) -> u32
        ensures { result ≡ frame_register self.entry.bytes.now }
    {
        u32::from(self.bytes[3] % 16)
    }

    fn frame_offset(self) -> u32
        ensures { result ≡ frame_offset self.entry.bytes.now }
    {
        u32::from(self.bytes[3] / 16 * 16)
    }

    // The header and the slots that it counts, whatever they hold.
    fn size(self) -> usize
        ensures { (result ≡ part_size self.entry.bytes.now) × (result ≤ 514) }
    {
        HEADER + SLOT * self.slot_count()
    }

    // What stands behind it.
    pub(crate) fn behind(self) -> &'a [u8]
        ensures { result.now ≡ drop (part_size self.entry.bytes.now) self.entry.bytes.now }
    {
        &self.bytes[self.size()..]
    }

    // Every save of the part lies relative to its frame register, wherever that is set; to RSP where there is none.
    fn operations(self) -> Operations<'a>
        ensures { let codes = codes_of self.entry.bytes.now in (operations result.frame result.slots.now ≡ codes) × (length codes < 256) }
    {
        Operations {
            slots: &self.bytes[HEADER..self.size()],
            frame: self.frame_register(),
        }
    }

    // How many operations it has.
    fn count_ops(self) -> usize
        ensures { (result ≡ length (codes_of self.entry.bytes.now)) × (result < 256) }
    {
        self.operations().count()
    }

    // How many words its info has.
    #[tactic(auto, using(crate::specs::Index::info_size))]
    pub(crate) fn count_words(self) -> usize
        ensures { (result ≡ length (info_words self.entry.bytes.now)) × (result ≤ 768) }
    {
        INFO_HEAD + OP_WORDS * self.count_ops()
    }

    // Its info: frame register, frame offset, operation count, operations. The count is stored once they are known. That there is room is asked, not
    // tested: whether all infos fit is known before the first is put, and no refusal is left for here.
    pub(crate) fn put(self, out: &mut [u32], at: usize) -> usize
        requires { at + length (info_words self.bytes.now) ≤ length out.old }
        ensures { Put out.old at (info_words self.entry.bytes.now) out.new result }
    {
        let first = put_words(out, at, &[self.frame_register(), self.frame_offset(), 0]);
        let mut p = first;
        let mut operations = self.operations();
        while let Some(op) = operations.next() {
            p = put_words(out, p, &op.words());
            // Most codes are pushes: they are looked for before the table is asked. A `for` over the iterator could not go on behind them.
            while let Some((register, behind)) = operations.push() {
                p = put_words(out, p, &PushNonVolatile(register).words());
                operations = behind;
            }
        }
        set_word(out, first - 1, ((p - first) / OP_WORDS) as u32);
        p
    }
}
