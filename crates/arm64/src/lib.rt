// ARM64 entries: the unwind operations of a function in a PE image, as Microsoft's page on ARM64 exception handling has them, into STACK CFI lines.
//
// An operation stands for one instruction of the prologue, so each gives a line of its own, four bytes further on. The operations are stored last
// first and run backwards. T is the bytes that the stack has grown by so far: the CFA is the stack pointer plus T, and a register stored at
// [sp, #value] lies at CFA + value - T.
//
// body reads the words, judge runs the operations and says what becomes of an entry, write puts its lines.
#![tactic(auto)]

mod body;
mod judge;
mod write;

ghost use Rattle.entry.specs.Entry.{Processed};
ghost use Rattle.arm64.specs.Arm64.{arm_entry};

use entry::{Last, Wrote};
use judge::judge;
use refusal::Refusal;
use write::put_lines;

// An unwind operation with the words that it uses: letter, register and value where it saves. They stand side by side: the definitions match on the
// variants and use the three as numbers, some of them value alone; a struct would be one more type in each, and no fewer words here.
#[derive(Clone, Copy)]
pub enum Op {
    AllocStack(u32),
    // [sp, #value]
    SaveReg(u32, u32, u32),
    // [sp, #-value]!
    SaveRegPreindexed(u32, u32, u32),
    // the register and the one behind it, [sp, #value]
    SaveRegPair(u32, u32, u32),
    // [sp, #-value]!
    SaveRegPairPreindexed(u32, u32, u32),
    // an x register and lr, [sp, #value]: register, value
    SaveLrPair(u32, u32),
    // the two registers behind the last pair, right above it
    SaveNext,
    Other,
    End,
    Undecodable,
}

// A register and where it is saved: at CFA + a - b.
#[derive(Clone, Copy)]
pub struct Saved {
    pub letter: u32,
    pub register: u64,
    pub a: u64,
    pub b: u64,
}

// What an operation saves: nothing, a register by itself, or two.
#[derive(Clone, Copy)]
pub enum Saves {
    Nothing,
    Alone(Saved),
    Paired(Saved, Saved),
}

// The state between operations: T, and the second register of the last pair; and what the operation just run writes: the CFA or not, and what it
// saves. The CFA's rule has T itself, which an option in place of the flag would hold twice.
#[derive(Clone, Copy)]
pub struct BreakpadEncoder {
    pub stack_size: u64,
    pub last: Saved,
    pub cfa_touched: bool,
    pub saves: Saves,
}

// One entry: judged, and put at `at` where it is written. It leaves to the next what was left to it.
pub fn process_pe_arm64(
    out: &mut [u8],
    at: usize,
    body: &[u32],
    last: Option<Last>,
) -> Result<Wrote, Refusal>
    ensures { Processed (arm_entry last body.now) out.old at out.new result }
{
    let at = match judge(body)? {
        Some(body) => put_lines(out, at, &body),
        None => at,
    };
    Ok(Wrote { at, last })
}
