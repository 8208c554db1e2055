// UNWIND_INFO of an x64 image, as Microsoft's page on x64 exception handling has it (version 1): bytes in, the words of an x64 body out.
//
// A function has one or more parts, its own and those that it is chained to, one right after the other. A part is four header bytes and
// the slots that it counts, two bytes each; an unwind code takes one to three of them:
//
//     byte 0   version (low 3 bits), flags         not read: the flags
//     byte 1   size of the prolog                  not read
//     byte 2   count of slots
//     byte 3   frame register (low 4 bits), frame offset in units of 16
//     slot     code offset, not read; operation code (low 4 bits), info (high 4 bits)
//
// code reads the unwind codes, part the headers, infos the parts one after the other, with refusals 10, 11 and 4; here the body is put,
// with refusal 9.
#![tactic(auto)]

mod code;
mod infos;
mod part;

ghost use Rattle.std.specs.Prelude.{◌≡◌, length};
ghost use Rattle.fill.specs.Fill.{Fills};
ghost use Rattle.unwind_info.specs.UnwindInfo.{decoded};

use fill::put_words;
use infos::Infos;
use refusal::Refusal;
use x64::kinds::{
    ALLOC, OTHER, PUSH_MACHINE_FRAME, PUSH_NONVOLATILE, SAVE_FP, SAVE_RSP, SET_FP_REGISTER,
    UNDECODABLE,
};

// What an unwind code becomes: an operation of the body, with the words that its kind uses, in their order, so by position. Not x64's Op: that has
// the info's frame register and offset in each operation, which a part has once.
#[derive(Clone, Copy, PartialEq, Eq)]
pub enum Operation {
    // register
    PushNonVolatile(u32),
    // value
    Alloc(u32),
    // register, value
    SaveRsp(u32, u32),
    SaveFp(u32, u32),
    SetFpRegister,
    // with an error code
    PushMachineFrame(bool),
    Other,
    Undecodable,
}

impl Operation {
    ghost use Rattle.unwind_info.specs.UnwindInfo.{words_of};

    // Kind, register, value; 0 for what the kind does not use.
    pub(crate) fn words(self) -> [u32; 3]
        ensures { result ≡ words_of self }
    {
        match self {
            Operation::PushNonVolatile(register) => [PUSH_NONVOLATILE, register, 0],
            Operation::Alloc(value) => [ALLOC, 0, value],
            Operation::SaveRsp(register, value) => [SAVE_RSP, register, value],
            Operation::SaveFp(register, value) => [SAVE_FP, register, value],
            Operation::SetFpRegister => [SET_FP_REGISTER, 0, 0],
            Operation::PushMachineFrame(code) => [PUSH_MACHINE_FRAME, 0, u32::from(code)],
            Operation::Other => [OTHER, 0, 0],
            Operation::Undecodable => [UNDECODABLE, 0, 0],
        }
    }
}

// An unwind code: the slots that it takes, and the operation that it becomes.
#[derive(Clone, Copy, PartialEq, Eq)]
pub struct UnwindCode {
    pub slots: usize,
    pub operation: Operation,
}

// The body of a function whose unwind bytes these are.
#[tactic(auto, using(crate::proofs::Loops::decode_refused, crate::proofs::Loops::decode_short))]
pub fn decode_x64(
    bytes: &[u8],
    begin: u32,
    end: u32,
    info_address: u32,
    body: &mut [u32],
) -> Result<usize, Refusal>
    ensures { Fills (decoded bytes.now begin end info_address (length body.old)) body.old body.new result }
{
    let infos = Infos::read(bytes)?;
    if !infos.fits(body.len()) {
        return Err(Refusal::Room);
    }
    let at = put_words(body, 0, &[begin, end, info_address, infos.parts as u32]);
    Ok(infos.put(body, at))
}
