// The tests of an x64 entry: the layout (refusal 4), skipping, and the chain (refusals 6 and 7). It is run once for both of these, and what it comes
// to is handed on to the line.
ghost use Rattle.std.specs.Prelude.{◌≡◌, min, false, get_or, Some, None, MatchOption, MatchResult};
ghost use Rattle.std.specs.List.{list_all, list_any};
ghost use Rattle.x64.specs.X64.{chain, x64_layout, all_zero, undecodable_infos, x64_skipped};
ghost use Rattle.x64.specs.Index.{op_fits_in, fits_in, undecodable_in, chain_refusal};
ghost use Rattle.x64.specs.Scan.{scan_start, advance, scan_step, scanned};

use crate::body::{Body, INFO_ADDRESS_AT, INFOS_AT, Info, OpWords, SLOT};
use crate::kinds::{PUSH_MACHINE_FRAME, PUSH_NONVOLATILE, SAVE_FP, SAVE_RSP, UNDECODABLE};
use crate::{BODY_HEAD, Frame, Op, Scan};
use entry::word;
use refusal::Refusal;

// The largest that a body may have (docs/BOOK.md).
const MOST_INFOS: u32 = 32;

const MOST_OPS: usize = 255;

const MOST_FRAME_OFFSET: u32 = 240;

// Register numbers end here.
const REGISTERS: u32 = 16;

// Totals and values end here: signed 32 bits.
const REACH_END: u32 = 0x8000_0000;

// ---- refusal 4

// The words of an operation keep the ranges of its kind.
#[tactic(auto, unfolding(crate::specs::Index::op_fits_in, crate::specs::X64::op_fits))]
fn op_fits(words: &OpWords) -> bool
    ensures { result ≡ op_fits_in words.now }
{
    let [kind, register, value] = *words;
    match kind {
        PUSH_NONVOLATILE | SAVE_RSP | SAVE_FP => register < REGISTERS,
        PUSH_MACHINE_FRAME => value <= 1,
        PUSH_NONVOLATILE..=UNDECODABLE => true,
        _ => false,
    }
}

fn ops_fit(ops: &[OpWords]) -> bool
    ensures { result ≡ list_all op_fits_in ops.now }
{
    ops.iter().all(op_fits)
}

impl<'a> Info<'a> {
    #[tactic(auto, unfolding(crate::specs::Index::fits_in))]
    fn fits(self) -> bool
        ensures { result ≡ fits_in self.entry.base self.entry.ops.now }
    {
        self.base.register < REGISTERS
            && self.base.offset <= MOST_FRAME_OFFSET
            && self.ops.len() <= MOST_OPS
            && ops_fit(self.ops)
    }

    fn has_undecodable(self) -> bool
        ensures { result ≡ list_any undecodable_in self.entry.ops.now }
    {
        self.ops.iter().any(|words| words[0] == UNDECODABLE)
    }
}

impl<'a> Body<'a> {
    // These words, where refusal 4 does not apply: ranges, and exactly the words that the counts demand.
    pub(crate) fn read(words: &'a [u32]) -> Option<Body<'a>>
        ensures { MatchOption result (x64_layout words.now ≡ false) (λ b. b.words.now ≡ words.now) }
    {
        let infos @ 1..=MOST_INFOS = word(words, INFOS_AT) else {
            return None;
        };
        // By split: an iterator would have to give infos that are refused.
        let mut rest = &words[BODY_HEAD..];
        for _ in 0..infos {
            let (info, behind) = Info::split(rest)?;
            if !info.fits() {
                return None;
            }
            rest = behind;
        }
        if !rest.is_empty() {
            return None;
        }
        Some(Body { words })
    }
}

// ---- entries that are skipped

impl<'a> Body<'a> {
    // An undecodable operation in the first infos, as many as the limit allows. By split, as from_info.
    fn has_undecodable(self, limit: u32) -> bool
        ensures { result ≡ undecodable_infos self.entry.words.now (min limit (get_or self.entry.words.now 3 0)) 4 }
    {
        let infos = self.info_count();
        let mut rest = self.from_info(0);
        for _ in 0..limit.min(infos) {
            let (info, behind) = Info::split(rest).unwrap();
            if info.has_undecodable() {
                return true;
            }
            rest = behind;
        }
        false
    }

    // Begin, end and the unwind info's address are all zero.
    #[tactic(auto, unfolding(crate::specs::X64::all_zero))]
    fn is_null(self) -> bool
        ensures { let ws = self.entry.words.now in result ≡ all_zero (get_or ws 0 0) (get_or ws 1 0) (get_or ws 2 0) }
    {
        self.begin() == 0 && self.end() == 0 && word(self.words, INFO_ADDRESS_AT) == 0
    }

    #[tactic(auto, unfolding(crate::specs::X64::x64_skipped))]
    pub(crate) fn is_skipped(self, limit: u32) -> bool
        ensures { result ≡ x64_skipped limit self.entry.words.now }
    {
        self.is_null() || self.end() < self.begin() || self.has_undecodable(limit)
    }
}

// ---- the chain: refusals 6 and 7, and what its line needs

impl Scan {
    #[tactic(auto, unfolding(crate::specs::Scan::scan_start))]
    fn start() -> Scan
        ensures { result ≡ scan_start }
    {
        Scan {
            total: SLOT,
            frame: None,
            twice: false,
            machine: false,
        }
    }

    // An operation that is in reach; the total after it is `total`.
    #[tactic(auto, unfolding(crate::specs::Scan::advance, crate::specs::Scan::grown, crate::specs::Scan::framed, crate::specs::Scan::machined))]
    fn advance(mut self, op: Op, total: u32) -> Scan
        ensures { result ≡ advance self op total }
    {
        match op {
            // The first one counts.
            Op::SetFpRegister(base) => match self.frame {
                Some(_) => self.twice = true,
                None => {
                    self.frame = Some(Frame {
                        base,
                        place: self.total,
                    });
                }
            },
            Op::PushMachineFrame(_) => self.machine = true,
            Op::PushNonVolatile(_)
            | Op::Alloc(_)
            | Op::SaveRsp(..)
            | Op::SaveFp(..)
            | Op::Other
            | Op::Undecodable => {}
        }
        self.total = total;
        self
    }

    // None where a number is out of reach.
    #[tactic(auto, unfolding(crate::specs::Scan::scan_step))]
    fn step(self, op: Op) -> Option<Scan>
        ensures { result ≡ scan_step self op }
    {
        if REACH_END <= op.value() {
            return None;
        }
        let total = self.total.checked_add(op.growth())?;
        if REACH_END <= total {
            return None;
        }
        Some(self.advance(op, total))
    }
}

// The whole chain, as it is run: refused by 6 or 7, or what it comes to.
pub(crate) fn scan_chain(body: Body) -> Result<Scan, Refusal>
    ensures { let ws = body.entry.words.now in
        MatchResult result (λ s. (chain_refusal ws ≡ None) × (scanned scan_start (chain ws) ≡ Some s)) (λ r. chain_refusal ws ≡ Some r) }
{
    let mut scan = Scan::start();
    for op in body.chain() {
        scan = scan.step(op).ok_or(Refusal::Reach)?;
    }
    if scan.twice {
        return Err(Refusal::Frame);
    }
    Ok(scan)
}
