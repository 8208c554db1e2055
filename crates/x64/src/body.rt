// What the words of an x64 body hold (docs/BOOK.md):
//
//     0                begin address
//     1                end address
//     2                address of the unwind info
//     3                info count, 1 to 32
//     4                infos, each: frame register, frame offset (1), operation count (2), operations (3)
//     of an operation  kind, register (1), value (2)
//
// and which words an operation uses, by its kind:
//
//     1 push                register
//     2 allocate            value
//     3 save                register, value
//     4 save by frame       register, value, and the info's frame register and offset
//     5 set frame           the info's frame register and offset
//     6 machine frame       value: 1 with an error code, else 0
//     7 other               -
//     8 undecodable         -
ghost use Rattle.std.specs.Prelude.{◌≡◌, ◌<◌, ◌≤◌, length, drop, get_or, MatchOption, T};
ghost use Rattle.x64.specs.X64.{chain, growth_of, value_of, x64_layout};
ghost use Rattle.x64.specs.Index.{op_in, info_length, info_at, IsInfo, left_to_run};

use crate::kinds::{
    ALLOC, PUSH_MACHINE_FRAME, PUSH_NONVOLATILE, SAVE_FP, SAVE_RSP, SET_FP_REGISTER, UNDECODABLE,
};
use crate::{BODY_HEAD, Base, INFO_HEAD, OP_WORDS, Op};
use entry::word;

// Where the words of a body stand.
const BEGIN_AT: usize = 0;

const END_AT: usize = 1;

pub(crate) const INFO_ADDRESS_AT: usize = 2;

pub(crate) const INFOS_AT: usize = 3;

pub(crate) type OpWords = [u32; OP_WORDS];

// A register or an address on the stack. The total starts with one: the return address.
pub(crate) const SLOT: u32 = 8;

// What an interrupt pushes, without and with an error code.
const MACHINE_FRAME: u32 = 40;

const MACHINE_FRAME_WITH_CODE: u32 = 48;

// ---- an operation

impl Op {
    // What it adds to the total.
    #[tactic(auto, unfolding(crate::specs::X64::growth_of))]
    pub(crate) fn growth(self) -> u32
        ensures { result ≡ growth_of self }
    {
        match self {
            Op::PushNonVolatile(_) => SLOT,
            Op::Alloc(v) => v,
            Op::PushMachineFrame(true) => MACHINE_FRAME_WITH_CODE,
            Op::PushMachineFrame(false) => MACHINE_FRAME,
            Op::SaveRsp(..)
            | Op::SaveFp(..)
            | Op::SetFpRegister(..)
            | Op::Other
            | Op::Undecodable => 0,
        }
    }

    // The value that it uses.
    #[tactic(auto, unfolding(crate::specs::X64::value_of))]
    pub(crate) fn value(self) -> u32
        ensures { result ≡ value_of self }
    {
        match self {
            Op::Alloc(v) | Op::SaveRsp(_, v) | Op::SaveFp(_, v, _) => v,
            Op::PushNonVolatile(_)
            | Op::SetFpRegister(..)
            | Op::PushMachineFrame(_)
            | Op::Other
            | Op::Undecodable => 0,
        }
    }
}

// ---- an info

// The frame register, and the words of the operations as they are stored.
#[derive(Clone, Copy)]
pub(crate) struct Info<'a> {
    pub(crate) base: Base,
    pub(crate) ops: &'a [OpWords],
}

impl<'a> Info<'a> {
    // The info that the words begin with, and the words behind it; none where they are too few. Not one with DWARF's rows over both sizes: of its three
    // slices each would make its own struct, and its contract would be as long as these two.
    pub(crate) fn split(words: &'a [u32]) -> Option<(Info<'a>, &'a [u32])>
        ensures { MatchOption result (length words.now < info_length words.now)
            (λ p. (info_length words.now ≤ length words.now)
            × IsInfo words.now p.0.base p.0.ops.now × (p.1.now ≡ drop (info_length words.now) words.now)) }
    {
        let (head, behind) = words.split_first_chunk::<INFO_HEAD>()?;
        let [register, offset, count] = *head;
        let end = OP_WORDS * count as usize;
        if behind.len() < end {
            return None;
        }
        let (ops, _) = behind[..end].as_chunks::<OP_WORDS>();
        let base = Base { register, offset };
        Some((Info { base, ops }, &behind[end..]))
    }

    // The operation that these words of it hold.
    #[tactic(auto, unfolding(crate::specs::Index::op_in, crate::specs::X64::op_of))]
    fn op(self, words: &OpWords) -> Op
        ensures { result ≡ op_in self.entry.base words.now }
    {
        let [kind, register, value] = *words;
        match kind {
            PUSH_NONVOLATILE => Op::PushNonVolatile(register),
            ALLOC => Op::Alloc(value),
            SAVE_RSP => Op::SaveRsp(register, value),
            SAVE_FP => Op::SaveFp(register, value, self.base),
            SET_FP_REGISTER => Op::SetFpRegister(self.base),
            PUSH_MACHINE_FRAME => Op::PushMachineFrame(value == 1),
            UNDECODABLE => Op::Undecodable,
            _ => Op::Other,
        }
    }
}

// ---- a body

// The words of a body that keeps the layout: refusal 4 does not apply. Begin, end and count are read where they stand: as fields, each would need a
// ghost fact that it is that word.
#[derive(Clone, Copy)]
pub(crate) struct Body<'a> {
    pub(crate) words: &'a [u32],
    ghost fits: { T (x64_layout words.now) },
}

impl<'a> Body<'a> {
    pub(crate) fn begin(self) -> u32
        ensures { result ≡ get_or self.entry.words.now 0 0 }
    {
        word(self.words, BEGIN_AT)
    }

    pub(crate) fn end(self) -> u32
        ensures { result ≡ get_or self.entry.words.now 1 0 }
    {
        word(self.words, END_AT)
    }

    pub(crate) fn info_count(self) -> u32
        ensures { result ≡ get_or self.entry.words.now 3 0 }
    {
        word(self.words, INFOS_AT)
    }

    // The words from info k on, counted from 0; at the count, none. Here and in has_undecodable by split, without an iterator of infos: with its list
    // in specs/ and its proofs it would be longer than the two loops.
    pub(crate) fn from_info(self, k: u32) -> &'a [u32]
        requires { k ≤ get_or self.words.now 3 0 }
        ensures { result.now ≡ drop (info_at self.entry.words.now k) self.entry.words.now }
    {
        let mut rest = &self.words[BODY_HEAD..];
        for _ in 0..k {
            rest = Info::split(rest).unwrap().1;
        }
        rest
    }

    // Info k, counted from 0.
    pub(crate) fn info(self, k: u32) -> Info<'a>
        requires { k < get_or self.words.now 3 0 }
        ensures { let ws = drop (info_at self.entry.words.now k) self.entry.words.now in IsInfo ws result.base result.ops.now }
    {
        Info::split(self.from_info(k)).unwrap().0
    }

    // The operations in the order in which they run.
    #[tactic(auto, unfolding(crate::specs::X64::chain))]
    pub(crate) fn chain(self) -> Chain<'a>
        ensures { left_to_run result.body.words.now result.left result.info.base result.info.ops.now ≡ chain self.entry.words.now }
    {
        Chain {
            body: self,
            left: self.info_count(),
            info: Info {
                base: Base {
                    register: 0,
                    offset: 0,
                },
                ops: &[],
            },
        }
    }
}

// The operations of a body: infos last to first, the operations of each backwards.
#[derive(Drop)]
pub(crate) struct Chain<'a> {
    body: Body<'a>,
    // how many infos are left, from the first on
    left: u32,
    // what is left of the info behind them
    info: Info<'a>,
    ghost within: { left ≤ get_or body.words.now 3 0 },
}

impl<'a> Iterator for Chain<'a> {
    ghost use Rattle.std.specs.Iterator.{YieldsFirst, item_count};
    ghost use Rattle.x64.specs.Index.{left_to_run};

    type Item = Op;

    ghost next_gives = { YieldsFirst (λ s. left_to_run s.body.words.now s.left s.info.base s.info.ops.now) };

    ghost remaining = { item_count (λ s. left_to_run s.body.words.now s.left s.info.base s.info.ops.now) };

    fn next(&mut self) -> Option<Op> {
        // No `for`: past infos without operations, of which there may be any number
        while self.info.ops.is_empty() && 0 < self.left {
            self.left -= 1;
            self.info = self.body.info(self.left);
        }
        let (words, others) = self.info.ops.split_last()?;
        self.info.ops = others;
        Some(self.info.op(words))
    }
}
