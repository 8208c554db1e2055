// What the words of an ARM64 body hold (docs/BOOK.md):
//
//     0                address
//     1                size
//     2                operation count, at most 1,024
//     3                operations, as they are stored
//     of an operation  kind, letter, register, value
//
// and which words an operation uses, by its kind:
//
//     1 allocate                 value
//     2 save                     letter, register, value          [sp, #value]
//     3 save, pre-indexed        letter, register, value          [sp, #-value]!
//     4 save a pair              letter, register, value          [sp, #value]
//     5 a pair, pre-indexed      letter, register, value          [sp, #-value]!
//     6 save a register and lr   register, value                  [sp, #value]
//     7 save the next pair       -
//     8 other                    -
//     9 end                      -
//     10 undecodable             -
//
// The operations before the first end count.
ghost use Rattle.std.specs.Prelude.{◌≡◌, ◌+◌, ◌*◌, ◌≤◌, length, position, false, MatchOption};
ghost use Rattle.std.specs.List.{before_first, list_all};
ghost use Rattle.arm64.specs.Arm64.{words_of, value_of, op_fits, arm_layout};
ghost use Rattle.arm64.specs.Index.{op_at, is_kind, words_fit, Holds};

use crate::Op;

// The words in front of the operations, and those of one.
const HEADER_WORDS: usize = 3;

pub(crate) const OP_WORDS: usize = 4;

// The largest that a body may have (docs/BOOK.md).
const MOST_OPS: u32 = 1024;

const MOST_REGISTER: u32 = 255;

// The kinds of operations, as the C interface numbers them: a body's word can hold any other, and an operation read from its words is an `Op`.
const ALLOC_STACK: u32 = 1;

const SAVE_REG: u32 = 2;

const SAVE_REG_PREINDEXED: u32 = 3;

const SAVE_REG_PAIR: u32 = 4;

const SAVE_REG_PAIR_PREINDEXED: u32 = 5;

const SAVE_LR_PAIR: u32 = 6;

const SAVE_NEXT: u32 = 7;

const OTHER: u32 = 8;

const END: u32 = 9;

pub(crate) const UNDECODABLE: u32 = 10;

// The bytes of an instruction.
const INSTRUCTION: u64 = 4;

// A body that keeps the layout: where the function starts, its size, and the words of the operations that count, as they are stored.
#[derive(Clone, Copy)]
pub(crate) struct Body<'a> {
    pub(crate) address: u32,
    pub(crate) size: u32,
    pub(crate) ops: &'a [[u32; OP_WORDS]],
    ghost few: { length ops.now ≤ 1024 },
}

impl<'a> Body<'a> {
    // The body, where refusal 4 does not apply: ranges, and exactly the words that the counts demand.
    pub(crate) fn read(words: &'a [u32]) -> Option<Body<'a>>
        ensures { MatchOption result (arm_layout words.now ≡ false) (λ b. Holds words.now b.address b.size b.ops.now) }
    {
        let ([address, size, count], rest) = words.split_first_chunk::<HEADER_WORDS>()?;
        if MOST_OPS < *count || rest.len() != OP_WORDS * *count as usize {
            return None;
        }
        let (ops, _) = rest.as_chunks::<OP_WORDS>();
        if !ops_fit(ops) {
            return None;
        }
        Some(Body {
            address: *address,
            size: *size,
            ops: counted(ops),
        })
    }

    // Where line i is.
    pub(crate) fn line(&self, i: usize) -> u64
        requires { i ≤ 1024 }
        ensures { result ≡ self.now.address + 4 * i }
    {
        self.address as u64 + INSTRUCTION * i as u64
    }
}

impl From<[u32; OP_WORDS]> for Op {
    ghost from_gives = { λ w o. o ≡ op_at w };

    #[tactic(auto, unfolding(crate::specs::Index::op_at, crate::specs::Arm64::op_of))]
    fn from([kind, letter, register, value]: [u32; OP_WORDS]) -> Op {
        match kind {
            ALLOC_STACK => Op::AllocStack(value),
            SAVE_REG => Op::SaveReg(letter, register, value),
            SAVE_REG_PREINDEXED => Op::SaveRegPreindexed(letter, register, value),
            SAVE_REG_PAIR => Op::SaveRegPair(letter, register, value),
            SAVE_REG_PAIR_PREINDEXED => Op::SaveRegPairPreindexed(letter, register, value),
            SAVE_LR_PAIR => Op::SaveLrPair(register, value),
            SAVE_NEXT => Op::SaveNext,
            END => Op::End,
            UNDECODABLE => Op::Undecodable,
            _ => Op::Other,
        }
    }
}

impl Op {
    // Kind, letter, register, value: what it is read from. What it does not use is 0.
    #[tactic(auto, unfolding(crate::specs::Arm64::words_of))]
    pub fn words(self) -> [u32; OP_WORDS]
        ensures { result ≡ words_of self }
    {
        match self {
            Op::AllocStack(value) => [ALLOC_STACK, 0, 0, value],
            Op::SaveReg(letter, register, value) => [SAVE_REG, letter, register, value],
            Op::SaveRegPreindexed(letter, register, value) => {
                [SAVE_REG_PREINDEXED, letter, register, value]
            }
            Op::SaveRegPair(letter, register, value) => [SAVE_REG_PAIR, letter, register, value],
            Op::SaveRegPairPreindexed(letter, register, value) => {
                [SAVE_REG_PAIR_PREINDEXED, letter, register, value]
            }
            Op::SaveLrPair(register, value) => [SAVE_LR_PAIR, 0, register, value],
            Op::SaveNext => [SAVE_NEXT, 0, 0, 0],
            Op::Other => [OTHER, 0, 0, 0],
            Op::End => [END, 0, 0, 0],
            Op::Undecodable => [UNDECODABLE, 0, 0, 0],
        }
    }

    // The value that it uses.
    #[tactic(auto, unfolding(crate::specs::Arm64::value_of))]
    pub(crate) fn value(self) -> u32
        ensures { result ≡ value_of self }
    {
        match self {
            Op::AllocStack(v)
            | Op::SaveReg(_, _, v)
            | Op::SaveRegPreindexed(_, _, v)
            | Op::SaveRegPair(_, _, v)
            | Op::SaveRegPairPreindexed(_, _, v)
            | Op::SaveLrPair(_, v) => v,
            Op::SaveNext | Op::Other | Op::End | Op::Undecodable => 0,
        }
    }
}

// ---- refusal 4

#[tactic(auto, unfolding(crate::specs::Arm64::op_fits))]
fn op_fits(kind: u32, register: u32) -> bool
    ensures { result ≡ op_fits kind register }
{
    match kind {
        SAVE_REG..=SAVE_LR_PAIR => register <= MOST_REGISTER,
        ALLOC_STACK..=UNDECODABLE => true,
        _ => false,
    }
}

fn ops_fit(ops: &[[u32; OP_WORDS]]) -> bool
    ensures { result ≡ list_all words_fit ops.now }
{
    ops.iter()
        .all(|&[kind, _, register, _]| op_fits(kind, register))
}

// Which is the first end. A function of its own: inside of `counted` the check finds no proof of what `position` gives.
fn first_end(ops: &[[u32; OP_WORDS]]) -> Option<usize>
    ensures { result ≡ position (is_kind 9) ops.now }
{
    ops.iter().position(|&[kind, ..]| kind == END)
}

// The operations that count.
fn counted(ops: &[[u32; OP_WORDS]]) -> &[[u32; OP_WORDS]]
    ensures { result.now ≡ before_first (is_kind 9) ops.now }
{
    match first_end(ops) {
        Some(n) => &ops[..n],
        None => ops,
    }
}
