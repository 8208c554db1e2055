// The unwind codes of a part: a slot each, and the one or two behind it that hold its number.
ghost use Rattle.std.specs.Prelude.{◌≡◌, ◌≤◌, ◌<◌, ◌/◌, ◌%◌, cond, leb, Some, None, IfSome, length};
ghost use Rattle.std.specs.Iterator.{YieldsFirst, item_count};
ghost use Rattle.unwind_info.specs.UnwindInfo.{slot_at, long_at, code, save, alloc_large, push_machframe, code_at};
ghost use Rattle.unwind_info.specs.Index.{taken};

use crate::Operation::{
    Alloc, Other, PushMachineFrame, PushNonVolatile, SaveFp, SaveRsp, SetFpRegister, Undecodable,
};
use crate::{Operation, UnwindCode};

// The operation codes (low 4 bits).
const PUSH_NONVOL: u8 = 0;

const ALLOC_LARGE: u8 = 1;

const ALLOC_SMALL: u8 = 2;

const SET_FPREG: u8 = 3;

const SAVE_NONVOL: u8 = 4;

const SAVE_NONVOL_FAR: u8 = 5;

const SAVE_XMM128: u8 = 8;

const SAVE_XMM128_FAR: u8 = 9;

const PUSH_MACHFRAME: u8 = 10;

// Numbers are stored in units of 8 bytes where they have one slot.
const UNIT: u32 = 8;

// A slot's two bytes.
pub(crate) const SLOT: usize = 2;

// An unwind code by its slots and its operation.
fn code(slots: usize, operation: Operation) -> UnwindCode
    ensures { Some result ≡ code slots operation }
{
    UnwindCode { slots, operation }
}

// The number in the slot behind the first, the low byte first; none where that is past the part's end.
#[tactic(auto, unfolding(crate::specs::UnwindInfo::slot_at))]
fn near(slots: &[u8]) -> Option<u32>
    ensures number { result ≡ cond (leb 2 (length slots.now / 2)) (Some (slot_at slots.now 2)) None }
    ensures small { IfSome result (λ n. n < 65536) }
{
    let [_, _, low, high, ..] = *slots else {
        return None;
    };
    Some(u32::from(u16::from_le_bytes([low, high])))
}

// The number in the two slots behind the first. Two functions: from_le_bytes is of one width, and one over a number of slots would choose between
// them.
#[tactic(auto, unfolding(crate::specs::UnwindInfo::slot_at, crate::specs::UnwindInfo::long_at))]
fn far(slots: &[u8]) -> Option<u32>
    ensures { result ≡ cond (leb 3 (length slots.now / 2)) (Some (long_at slots.now 2)) None }
{
    let [_, _, a, b, c, d, ..] = *slots else {
        return None;
    };
    Some(u32::from_le_bytes([a, b, c, d]))
}

// A save lies relative to the frame register wherever the part has one: a number, not an option, as 0 is none on the page too.
fn save(frame: u32, register: u32, value: u32) -> Operation
    ensures { result ≡ save frame register value }
{
    if frame == 0 {
        return SaveRsp(register, value);
    }
    SaveFp(register, value)
}

// Info 0 has one slot in units of 8 behind it, info 1 two as they are.
fn alloc_large(slots: &[u8], info: u32) -> Option<UnwindCode>
    ensures { result ≡ taken (length slots.now / 2) (alloc_large info (slot_at slots.now 2) (long_at slots.now 2)) }
{
    match info {
        0 => Some(code(2, Alloc(UNIT * near(slots)?))),
        1 => Some(code(3, Alloc(far(slots)?))),
        _ => None,
    }
}

// Info says whether there is an error code.
fn push_machframe(info: u32) -> Option<UnwindCode>
    ensures { result ≡ push_machframe info }
{
    match info {
        0 | 1 => Some(code(1, PushMachineFrame(info == 1))),
        _ => None,
    }
}

// The code that these slots start with: none where it is not defined, or runs past their end.
#[tactic(auto, unfolding(crate::specs::UnwindInfo::codes, crate::specs::UnwindInfo::code_at))]
fn code_at(slots: &[u8], frame: u32) -> Option<UnwindCode>
    requires { 2 ≤ length slots.now }
    ensures { result ≡ taken (length slots.now / 2) (code_at frame slots.now) }
{
    let b = slots[1];
    let info = u32::from(b / 16);
    match b % 16 {
        PUSH_NONVOL => Some(code(1, PushNonVolatile(info))),
        ALLOC_LARGE => alloc_large(slots, info),
        ALLOC_SMALL => Some(code(1, Alloc(UNIT * info + UNIT))),
        SET_FPREG => Some(code(1, SetFpRegister)),
        SAVE_NONVOL => Some(code(2, save(frame, info, UNIT * near(slots)?))),
        SAVE_NONVOL_FAR => Some(code(3, save(frame, info, far(slots)?))),
        SAVE_XMM128 => near(slots).and(Some(code(2, Other))),
        SAVE_XMM128_FAR => far(slots).and(Some(code(3, Other))),
        PUSH_MACHFRAME => push_machframe(info),
        _ => None,
    }
}

// The operations of a part's slots, by its frame register, one code after the other. One that is undecodable is the last.
#[derive(Clone, Copy)]
pub(crate) struct Operations<'a> {
    pub slots: &'a [u8],
    pub frame: u32,
    ghost whole: { length slots.now % 2 ≡ 0 },
}

impl<'a> Operations<'a> {
    ghost use Rattle.std.specs.Prelude.{◌≡◌, ◌∷◌, IfSome};
    ghost use Rattle.unwind_info.specs.Index.{operations};
    ghost use Rattle.unwind_info.specs.declared.Operation.TheVariants.{PushNonVolatile as push};

    // The register of a push that they begin with, and those behind it; by value, so that it stays in registers.
    #[tactic(auto, using(crate::specs::Index::operations_push))]
    pub(crate) fn push(self) -> Option<(u32, Operations<'a>)>
        ensures { IfSome result (λ p. operations self.entry.frame self.entry.slots.now ≡ push p.0 ∷ operations p.1.frame p.1.slots.now) }
    {
        let [_, b, ..] = *self.slots else {
            return None;
        };
        if b % 16 != PUSH_NONVOL {
            return None;
        }
        let operations = Operations {
            slots: &self.slots[SLOT..],
            frame: self.frame,
        };
        Some((u32::from(b / 16), operations))
    }
}

impl<'a> Iterator for Operations<'a> {
    ghost use Rattle.unwind_info.specs.Index.{operations};

    type Item = Operation;

    ghost next_gives = { YieldsFirst (λ s. operations s.frame s.slots.now) };

    ghost remaining = { item_count (λ s. operations s.frame s.slots.now) };

    #[tactic(auto, using(crate::specs::Index::operations_last, crate::specs::Index::no_operations))]
    fn next(&mut self) -> Option<Operation> {
        if self.slots.is_empty() {
            return None;
        }
        match code_at(self.slots, self.frame) {
            Some(code) => {
                self.slots = &self.slots[SLOT * code.slots..];
                Some(code.operation)
            }
            None => {
                self.slots = &[];
                Some(Undecodable)
            }
        }
    }
}
