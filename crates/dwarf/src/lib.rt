// DWARF entries: the rows of a frame description entry (DWARF standard, Call Frame Information) into STACK CFI lines.
//
// Each row tells, from its start address on, where the CFA lies and how the caller's registers are found. Only what differs from the row that
// last spoke of it is written, so the state that goes from row to row is the CFA last seen and, for each register, the rule last seen.
//
// body reads the words, judge says what becomes of an entry, write puts its lines.
#![tactic(auto)]

mod body;
mod judge;
mod write;

ghost use Rattle.std.specs.Prelude.{◌≤◌};
ghost use Rattle.entry.specs.Entry.{Processed};
ghost use Rattle.dwarf.specs.Dwarf.{dwarf_entry};

use body::Body;
use entry::{Fate, Last, Wrote};
use refusal::Refusal;
use write::put_entry;

// A register's rule in a row; the value is 0 where the kind uses none. Kind and value stay two numbers: document 01 has an array of each, so an enum
// would be taken apart and made again at each rule.
#[derive(Clone, Copy)]
pub struct RegisterRule {
    pub register: u32,
    pub kind: u32,
    pub value: u64,
}

// A row's CFA: a register and an offset, or an expression, of which nothing is kept.
#[derive(Clone, Copy, PartialEq, Eq)]
pub enum CfaRule {
    RegisterPlus(u32, u64),
    Expression,
}

// What holds for all rows: CPU family, return register, load address, first start, and the length up to the last end.
#[derive(Clone, Copy)]
pub struct Fde {
    pub family: u32,
    pub ra: u32,
    pub load: u64,
    pub start: u64,
    pub length: u64,
}

// Registers met, at most 64, with their count: an array, since there is no heap.
#[derive(Clone, Copy)]
pub struct Registers {
    pub number: [u32; 64],
    pub count: usize,
    pub ghost few: { count ≤ 64 },
}

// At most 64 registers, with their count: the rule last seen of each. Arrays are document 01's form, and there is no heap.
#[derive(Clone, Copy)]
pub struct RuleCache {
    pub register: [u32; 64],
    pub kind: [u32; 64],
    pub value: [u64; 64],
    pub count: usize,
    pub ghost few: { count ≤ 64 },
}

// What goes from row to row: the CFA last seen, if any, and the rules last seen.
#[derive(Clone, Copy)]
pub struct RowState {
    pub cfa: Option<CfaRule>,
    pub rules: RuleCache,
}

// Where the text goes on, and what is last seen there: by value from row to row, as document 01 has it. A pair's fields would have no names.
#[derive(Clone, Copy)]
pub struct Placed {
    pub at: usize,
    pub state: RowState,
}

// One entry: judged, and put at `at` where it is written. It leaves to the next what was left to it.
pub fn process_fde(
    out: &mut [u8],
    at: usize,
    body: &[u32],
    last: Option<Last>,
) -> Result<Wrote, Refusal>
    ensures { Processed (dwarf_entry last body.now) out.old at out.new result }
{
    let body = Body::read(body).ok_or(Refusal::Layout)?;
    match body.judge()? {
        Fate::Skip => Ok(Wrote { at, last }),
        Fate::Write => {
            let at = put_entry(out, at, body);
            Ok(Wrote { at, last })
        }
    }
}
