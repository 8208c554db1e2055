// The codes one after the other: counted, with refusals 12 and 4, and put.
ghost use Rattle.std.specs.Prelude.{◌≡◌, ◌+◌, ◌*◌, ◌≤◌, T, length, IfOk, IfErr};
ghost use Rattle.text.specs.Text.{Put};
ghost use Rattle.text.specs.Tests.{all};
ghost use Rattle.refusal.specs.Refusal.{number};
ghost use Rattle.unwind_codes.specs.UnwindCodes.{whole, list, op_words, arm_number};

use crate::code::Code;
use fill::put_words;
use refusal::Refusal;

// The most that a body may have (docs/BOOK.md).
const MOST_OPS: usize = 1024;

// Bytes whose codes are all there, and how many there are.
#[derive(Clone, Copy)]
pub(crate) struct Codes<'a> {
    pub bytes: &'a [u8],
    pub count: usize,
    ghost few: { count ≤ 1024 },
    ghost counted: { count ≡ length (list bytes.now) },
    ghost wholes: { T (all whole (list bytes.now)) },
}

impl<'a> Codes<'a> {
    // Code by code to the list's end, then their number.
    pub(crate) fn read(bytes: &'a [u8]) -> Result<Codes<'a>, Refusal>
        ensures ok { IfOk result (λ codes. (codes.bytes.now ≡ bytes.now) × (arm_number bytes.now ≡ 0)) }
        ensures err { IfErr result (λ r. number r ≡ arm_number bytes.now) }
    {
        let mut rest = bytes;
        let mut count = 0;
        // No for: an iterator of codes that may be cut off would stand for this one loop alone.
        while !rest.is_empty() {
            let code = Code::read(rest).ok_or(Refusal::Code)?;
            count += 1;
            rest = code.rest();
            if code.ends() {
                break;
            }
        }
        Codes::counted(bytes, count)
    }

    // 4 where there are too many. A function of its own: what arm_number is matters here alone.
    #[tactic(auto, unfolding(crate::specs::UnwindCodes::arm_number))]
    fn counted(bytes: &'a [u8], count: usize) -> Result<Codes<'a>, Refusal>
        requires counted { count ≡ length (list bytes.now) }
        requires wholes { T (all whole (list bytes.now)) }
        ensures ok { IfOk result (λ codes. (codes.bytes.now ≡ bytes.now) × (arm_number bytes.now ≡ 0)) }
        ensures err { IfErr result (λ r. number r ≡ arm_number bytes.now) }
    {
        if MOST_OPS < count {
            return Err(Refusal::Layout);
        }
        Ok(Codes { bytes, count })
    }

    // The operations, in a room that is long enough.
    pub(crate) fn put(self, out: &mut [u32], at: usize) -> usize
        requires { at + 4 * self.count ≤ length out.old }
        ensures { Put out.old at (op_words (list self.entry.bytes.now)) out.new result }
    {
        let mut p = at;
        let mut rest = self.bytes;
        // By their number: which one ends the list was asked when they were counted. An iterator would stand for this one loop alone.
        for _ in 0..self.count {
            let code = Code::first(rest);
            // First the words, then what stands behind, then they are put: in other orders decoding took 278.0 and 305.7
            // instructions a function in place of 273.2.
            let words = code.operation().words();
            rest = code.rest();
            p = put_words(out, p, &words);
        }
        p
    }
}
