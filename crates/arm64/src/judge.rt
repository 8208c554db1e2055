// What becomes of an ARM64 entry: refused by 4, skipped, refused by 6, or written.
// The encoder runs the operations: for refusal 6 here, and again for the lines.
ghost use Rattle.std.specs.Prelude.{◌≡◌, ◌+◌, ◌^◌, ◌<◌, ◌≤◌, true, false, MatchOption, MatchResult};
ghost use Rattle.entry.specs.declared.Fate.TheVariants.{Skip};
ghost use Rattle.std.specs.List.{list_any};
ghost use Rattle.std.proofs.Math.IntN.{sub_ℕ};
ghost use Rattle.lines.specs.Reach.{inside};
ghost use Rattle.arm64.specs.declared.Saves.TheVariants.{Nothing, Alone, Paired};
ghost use Rattle.arm64.specs.Arm64.{width, above, saved, pair_from, is_lr, writes_ra, no_pair, saved_fits, saves_fit, fits, in_reach, arm_judged};
ghost use Rattle.arm64.specs.Encoder.{start_encoder, stepped, Steps, line_fits, Near, EachNear, EachNear-prop};
ghost use Rattle.arm64.specs.Index.{is_kind, ops_run, Admitted};

use crate::body::{Body, UNDECODABLE};
use crate::{BreakpadEncoder, Op, Saved, Saves};
use refusal::Refusal;

// The letter x, and x30, the link register.
pub(crate) const X: u32 = 0;

pub(crate) const LR: u64 = 30;

// A pair's second register too.
const MOST_PAIRED: u64 = 255;

// The letter q, and the bytes of a register: of x and d, and of q. A letter stays the body's word: any above 1 is q, and names are made from it.
const Q: u32 = 2;

const WIDTH: u64 = 8;

const Q_WIDTH: u64 = 16;

// Before the first pair save-next goes on from x0 at place 0.
const NOTHING: Saved = Saved {
    letter: 0,
    register: 0,
    a: 0,
    b: 0,
};

// ---- the encoder

#[tactic(auto, unfolding(crate::specs::Arm64::width))]
fn width_of(letter: u32) -> u64
    ensures { (result ≡ width letter) × (result ≤ 16) }
{
    if letter < Q { WIDTH } else { Q_WIDTH }
}

impl Saved {
    // A register at [sp, #value], where the stack has this total.
    fn get_indexed(letter: u32, register: u32, value: u32, total: u64) -> Saved
        ensures { result ≡ saved letter register value total }
    {
        Saved {
            letter,
            register: register as u64,
            a: value as u64,
            b: total,
        }
    }

    // A register at [sp, #-value]!: the stack has grown to this total first, and it lies at its end.
    fn get_pre_indexed(letter: u32, register: u32, total: u64) -> Saved
        ensures { result ≡ saved letter register 0 total }
    {
        Saved::get_indexed(letter, register, 0, total)
    }

    // x30, the link register. & and not &&, here and below: both sides are cheap, and no path forks, in the code or in the proof.
    pub(crate) fn is_lr(self) -> bool
        ensures { result ≡ is_lr self }
    {
        (self.letter == X) & (self.register == LR)
    }

    // The next register, right above. Bounds of its own, here and where pairs are saved: Near holds of what is in reach, and that is not yet known.
    #[tactic(auto, unfolding(crate::specs::Arm64::above))]
    fn above(self) -> Saved
        requires { (self.register < 2 ^ 33) × (self.a < 2 ^ 34) }
        ensures { result ≡ above self }
    {
        let w = width_of(self.letter);
        Saved {
            letter: self.letter,
            register: self.register + 1,
            a: self.a + w,
            b: self.b,
        }
    }
}

impl Saves {
    // Is the return address among them: x30 as a pair's second.
    #[tactic(auto, unfolding(crate::specs::Arm64::writes_ra))]
    pub(crate) fn writes_ra(self) -> bool
        ensures { result ≡ writes_ra self }
    {
        match self {
            Saves::Paired(_, q) => q.is_lr(),
            Saves::Nothing | Saves::Alone(_) => false,
        }
    }
}

impl BreakpadEncoder {
    #[tactic(auto, unfolding(crate::specs::Encoder::start_encoder, crate::specs::Encoder::encoder))]
    fn new() -> BreakpadEncoder
        ensures { result ≡ start_encoder }
    {
        BreakpadEncoder {
            stack_size: 0,
            last: NOTHING,
            cfa_touched: false,
            saves: Saves::Nothing,
        }
    }

    fn begin_instruction(mut self) -> BreakpadEncoder
        ensures { result ≡ record self { cfa_touched = false; saves = Nothing } }
    {
        self.cfa_touched = false;
        self.saves = Saves::Nothing;
        self
    }

    // The stack grows, and the CFA with it.
    fn alloc_stack(mut self, size: u32) -> BreakpadEncoder
        requires { self.stack_size < 2 ^ 31 }
        ensures { result ≡ record self { stack_size = self.stack_size + size; cfa_touched = true } }
    {
        self.stack_size = self.stack_size + size as u64;
        self.cfa_touched = true;
        self
    }

    // One register; save-next still goes on from the last pair.
    fn save_one(mut self, saved: Saved) -> BreakpadEncoder
        ensures { result ≡ record self { saves = Alone saved } }
    {
        self.saves = Saves::Alone(saved);
        self
    }

    // A register and the one behind it, from which save-next goes on.
    fn save_pair(mut self, first: Saved) -> BreakpadEncoder
        requires { (first.register < 2 ^ 33) × (first.a < 2 ^ 34) }
        ensures { result ≡ record self { saves = pair_from first; last = above first } }
    {
        self.last = first.above();
        self.saves = Saves::Paired(first, self.last);
        self
    }

    // An x register and lr; save-next does not go on from these.
    fn save_reg_and_lr(mut self, first: Saved) -> BreakpadEncoder
        requires { first.a < 2 ^ 34 }
        ensures { result ≡ record self { saves = Paired first (saved 0 30 (first.a + 8) first.b) } }
    {
        let second = Saved {
            letter: X,
            register: LR,
            a: first.a + WIDTH,
            b: first.b,
        };
        self.saves = Saves::Paired(first, second);
        self
    }

    // One operation: the state after it, with what it writes.
    #[tactic(auto, unfolding(crate::specs::Encoder::encoder, crate::specs::Encoder::stepped, crate::specs::Arm64::growth_of, crate::specs::Arm64::writes_cfa, crate::specs::Arm64::saves, crate::specs::Arm64::last_after))]
    fn step(mut self, op: Op) -> BreakpadEncoder
        requires { (self.stack_size < 2 ^ 31) × Near self.last }
        ensures { result ≡ stepped self op }
    {
        let total = self.stack_size;
        let last = self.last;
        self = self.begin_instruction();
        match op {
            Op::AllocStack(v) => self.alloc_stack(v),
            Op::SaveReg(l, r, v) => self.save_one(Saved::get_indexed(l, r, v, total)),
            Op::SaveRegPreindexed(l, r, v) => {
                self = self.alloc_stack(v);
                self.save_one(Saved::get_pre_indexed(l, r, self.stack_size))
            }
            Op::SaveRegPair(l, r, v) => self.save_pair(Saved::get_indexed(l, r, v, total)),
            Op::SaveRegPairPreindexed(l, r, v) => {
                self = self.alloc_stack(v);
                self.save_pair(Saved::get_pre_indexed(l, r, self.stack_size))
            }
            Op::SaveLrPair(r, v) => self.save_reg_and_lr(Saved::get_indexed(X, r, v, total)),
            Op::SaveNext => self.save_pair(last.above()),
            Op::Other => self.alloc_stack(0),
            Op::End | Op::Undecodable => self,
        }
    }
}

// ---- refusal 6

// Totals, values and places end here: signed 32 bits.
const REACH_END: u64 = 0x8000_0000;

// Addresses end here.
const ADDRESSES: u64 = 0x1_0000_0000;

// a - b lies inside signed 32 bits.
#[tactic(auto, using(crate::specs::Index::inside_is))]
fn is_inside(a: u64, b: u64) -> bool
    ensures { result ≡ inside (sub_ℕ a b) }
{
    (a.saturating_sub(b) < REACH_END) & (b.saturating_sub(a) <= REACH_END)
}

#[tactic(auto, unfolding(crate::specs::Arm64::saved_fits))]
fn saved_fits(p: Saved) -> bool
    ensures { result ≡ saved_fits p }
{
    is_inside(p.a, p.b) & (p.register <= MOST_PAIRED)
}

#[tactic(auto, unfolding(crate::specs::Arm64::saves_fit))]
fn saves_fit(saves: Saves) -> bool
    ensures { result ≡ saves_fit saves }
{
    match saves {
        Saves::Nothing => true,
        Saves::Alone(p) => saved_fits(p),
        Saves::Paired(p, q) => saved_fits(p) & saved_fits(q),
    }
}

// What an operation that uses `value` has left in the encoder, on a line at `address`.
#[tactic(auto, unfolding(crate::specs::Encoder::line_fits, lines::specs::Reach::inside))]
fn fits_line(address: u64, value: u32, e: BreakpadEncoder) -> bool
    ensures { result ≡ line_fits address value e }
{
    ((value as u64) < REACH_END)
        & (e.stack_size < REACH_END)
        & saves_fit(e.saves)
        & (address < ADDRESSES)
}

// A state whose numbers are in reach.
#[derive(Clone, Copy)]
pub(crate) struct InReach {
    pub(crate) state: BreakpadEncoder,
    ghost total: { state.stack_size < 2 ^ 31 },
    ghost last: { Near state.last },
    ghost saved: { EachNear state.saves } by { EachNear-prop state.saves },
}

impl InReach {
    pub(crate) fn new() -> InReach
        ensures { result.state ≡ start_encoder }
    {
        InReach {
            state: BreakpadEncoder::new(),
        }
    }

    // One operation, whose line is at `address`; none where a number of it is out of reach.
    // Inlined: as a call, a word of real books takes some 20 % more instructions.
    #[inline(always)]
    pub(crate) fn step(self, op: Op, address: u64) -> Option<InReach>
        ensures { MatchOption result (fits address self.state.stack_size self.state.last op ≡ false) (λ e. Steps address self.state op e.state) }
    {
        let state = self.state.step(op);
        if !fits_line(address, op.value(), state) {
            return None;
        }
        Some(InReach { state })
    }
}

// Refusal 6 does not apply: every number of the operations, run backwards, is in reach.
fn reach(body: &Body) -> bool
    ensures { result ≡ in_reach body.now.address 0 0 no_pair (ops_run body.now.ops.now) }
{
    let mut e = InReach::new();
    for (i, words) in body.ops.iter().rev().enumerate() {
        let Some(next) = e.step(Op::from(*words), body.line(i)) else {
            return false;
        };
        e = next;
    }
    true
}

// ---- entries that are skipped

// An undecodable one among the operations that count.
fn is_undecodable(body: &Body) -> bool
    ensures { result ≡ list_any (is_kind 10) body.now.ops.now }
{
    body.ops.iter().any(|&[kind, ..]| kind == UNDECODABLE)
}

// ---- one entry

// What becomes of an entry: refused by 4 or 6, skipped where there is no body, or this body is written.
pub(crate) fn judge(words: &[u32]) -> Result<Option<Body<'_>>, Refusal>
    ensures { MatchResult result (λ o. MatchOption o (arm_judged words.now ≡ Ok Skip) (λ b. Admitted words.now b.address b.size b.ops.now)) (λ r. arm_judged words.now ≡ Err r) }
{
    let body = Body::read(words).ok_or(Refusal::Layout)?;
    if is_undecodable(&body) {
        return Ok(None);
    }
    if !reach(&body) {
        return Err(Refusal::Reach);
    }
    Ok(Some(body))
}
