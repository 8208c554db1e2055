// x64 entries: the unwind operations of a function in a PE image, as Microsoft's page on x64 exception handling has them, into one STACK CFI line.
//
// A prologue pushes registers, allocates stack and saves more registers; its unwind codes say how to undo that. Run in the order of the prologue,
// with S the bytes between the stack pointer and the CFA so far (8 at entry: the return address), each operation tells where a register lies:
//
//     CFA - 8          return address
//     CFA - S          the stack pointer where the next operation runs
//
// A chain of infos describes one function: its own info, then that of the function it is a part of, its parent, and so on. The outermost parent's
// operations came first in the prologue, so the infos are run last to first, and the operations of each, stored last first, backwards.
//
// kinds numbers the operations, body reads the words, judge has the tests for refusal 4, for skipping and for refusals 6 and 7, write puts the line.
// process_pe asks in their order, and for refusal 5 itself.
#![tactic(auto)]

mod body;
mod judge;
pub mod kinds;
mod write;

ghost use Rattle.entry.specs.Entry.{Processed};
ghost use Rattle.x64.specs.X64.{x64_entry};

use body::Body;
use entry::{Last, Wrote};
use judge::scan_chain;
use refusal::Refusal;
use write::put_entry;

// How many words stand in a body before its infos, in an info before its operations, and in an operation: kind, register, value.
pub const BODY_HEAD: usize = 4;

pub const INFO_HEAD: usize = 3;

pub const OP_WORDS: usize = 3;

// An info's frame register, with its frame offset.
#[derive(Clone, Copy)]
pub struct Base {
    pub register: u32,
    pub offset: u32,
}

// An unwind operation with the words that it uses; those that need the frame register carry it with its offset. By position, not by name: they stand
// as in a body's words, register and then value, and the definitions in specs/ read them in that order.
#[derive(Clone, Copy)]
pub enum Op {
    // 8 bytes: the register lies at the new top of the stack
    PushNonVolatile(u32),
    // that many bytes
    Alloc(u32),
    // the register lies that many bytes above the stack pointer
    SaveRsp(u32, u32),
    // the register lies value - frame offset bytes above the frame register: register, value
    SaveFp(u32, u32, Base),
    // the frame register now is the stack pointer plus the frame offset
    SetFpRegister(Base),
    // an interrupt pushed SS, RSP, EFLAGS, CS and RIP, 40 bytes, and with `true` an error code of 8 more
    PushMachineFrame(bool),
    Other,
    Undecodable,
}

// A frame register that is set, and the total where it is set.
#[derive(Clone, Copy)]
pub struct Frame {
    pub base: Base,
    pub place: u32,
}

// What a chain comes to, as far as it is run: the total, the frame register that was set first, whether one was set again, and whether there was a
// machine frame. `twice` stands beside `frame` and ends no run: document 01 has refusal 6, which an operation further on may meet, before 7. An enum
// of none, one and more would hold the frame in two of them.
#[derive(Clone, Copy)]
pub struct Scan {
    pub total: u32,
    pub frame: Option<Frame>,
    pub twice: bool,
    pub machine: bool,
}

// One entry: judged, and put at `at` where it is written. It leaves to the next what was left to it.
pub fn process_pe(
    out: &mut [u8],
    at: usize,
    body: &[u32],
    limit: u32,
    last: Option<Last>,
) -> Result<Wrote, Refusal>
    ensures { Processed (x64_entry limit last body.now) out.old at out.new result }
{
    let body = Body::read(body).ok_or(Refusal::Layout)?;
    if body.is_skipped(limit) {
        return Ok(Wrote { at, last });
    }
    if limit < body.info_count() {
        return Err(Refusal::Chain);
    }
    let scan = scan_chain(body)?;
    let at = put_entry(out, at, body, scan);
    Ok(Wrote { at, last })
}
