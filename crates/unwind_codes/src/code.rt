// One unwind code: how many bytes it has, and the operation that it becomes. The codes have the page's names.
ghost use Rattle.std.specs.Prelude.{◌≡◌, ◌≢◌, ℕ, ◌+◌, ◌*◌, ◌/◌, ◌%◌, ◌<◌, ◌≤◌, true, false, MatchOption, length, get_or, drop};
ghost use Rattle.unwind_codes.specs.UnwindCodes.{any_reg_unit, any_reg_offset, scalable as scalable_of, any_save as save_of, any_reg, code_of, meant, size_at, operation_at, whole, ends as ends_of};

use arm64::Op;

// The letters of registers, numbers as a body's words have them, and the first registers that codes number from.
const X: u32 = 0;

const D: u32 = 1;

const Q: u32 = 2;

const FIRST_X: u32 = 19;

const FIRST_D: u32 = 8;

const FP: u32 = 29;

// Places and sizes are in units of 8 or 16 bytes.
const UNIT: u32 = 8;

const WIDE_UNIT: u32 = 16;

// From the first of these bytes on codes have two bytes, from the second on each has its own number of them.
const ALLOC_M: u8 = 0xc0;

const ALLOC_L: u8 = 0xe0;

// Codes by themselves.
const ADD_FP: u8 = 0xe2;

const END_CODE: u8 = 0xe4;

const SAVE_NEXT: u8 = 0xe6;

const SAVE_ANY_REG: u8 = 0xe7;

const RESERVED_2: u8 = 0xf8;

const RESERVED_3: u8 = 0xf9;

const RESERVED_4: u8 = 0xfa;

const RESERVED_5: u8 = 0xfb;

const PAC_SIGN_LR: u8 = 0xfc;

// How many bytes a code has, by its first. Ranges by if, here and in what goes by the first byte below: with a match in this place decoding takes
// 14 % more instructions, with matches there 5 % more, counted on a build without the proofs.
fn size_of(b: u8) -> usize
    ensures { (result ≡ (code_of b).size) × (1 ≤ result) × (result ≤ 5) }
{
    if b < ALLOC_M {
        return 1;
    }
    if b < ALLOC_L {
        return 2;
    }
    match b {
        ALLOC_L => 4,
        ADD_FP => 2,
        SAVE_ANY_REG => 3,
        RESERVED_2 => 2,
        RESERVED_3 => 3,
        RESERVED_4 => 4,
        RESERVED_5 => 5,
        _ => 1,
    }
}

// ---- 00 to BF: one byte

#[tactic(auto, using(crate::specs::Index::alloc_s, crate::specs::Index::save_r19r20_x, crate::specs::Index::save_fplr, crate::specs::Index::save_fplr_x))]
fn one_byte(b: u8) -> Op
    requires { b < 192 }
    ensures { result ≡ meant (code_of b) b }
{
    let b = u32::from(b);
    match b {
        // alloc_s
        ..=0x1f => Op::AllocStack(WIDE_UNIT * (b % 32)),
        // save_r19r20_x, the one pre-indexed pair whose offset is not a unit more than the bits say
        ..=0x3f => Op::SaveRegPairPreindexed(X, FIRST_X, UNIT * (b % 32)),
        // save_fplr
        ..=0x7f => Op::SaveRegPair(X, FP, UNIT * (b % 64)),
        // save_fplr_x
        _ => Op::SaveRegPairPreindexed(X, FP, UNIT * (b % 64) + UNIT),
    }
}

// ---- C0 to DF: two bytes, as one number n

// alloc_m, and the codes that save x registers. Each arm is a line of the page's table: one function for x and d would take the first bytes, the
// register and the width of its field, and have as many arms.
#[tactic(auto, using(crate::specs::Index::alloc_m, crate::specs::Index::save_regp, crate::specs::Index::save_regp_x, crate::specs::Index::save_reg, crate::specs::Index::save_reg_x, crate::specs::Index::save_lrpair))]
fn integer_save(b: u8, n: u32) -> Op
    requires { (192 ≤ b) × (b < 216) }
    ensures { result ≡ meant (code_of b) n }
{
    let register = FIRST_X + n / 64 % 16;
    let value = UNIT * (n % 64);
    match b {
        // alloc_m
        ..=0xc7 => Op::AllocStack(WIDE_UNIT * (n % 2048)),
        // save_regp
        ..=0xcb => Op::SaveRegPair(X, register, value),
        // save_regp_x
        ..=0xcf => Op::SaveRegPairPreindexed(X, register, value + UNIT),
        // save_reg
        ..=0xd3 => Op::SaveReg(X, register, value),
        // save_reg_x
        ..=0xd5 => { Op::SaveRegPreindexed(X, FIRST_X + n / 32 % 16, UNIT * (n % 32) + UNIT) }
        // save_lrpair: the numbers go up by two
        _ => Op::SaveLrPair(FIRST_X + 2 * (n / 64 % 8), value),
    }
}

// The codes that save d registers, and alloc_z.
#[tactic(auto, using(crate::specs::Index::save_fregp, crate::specs::Index::save_fregp_x, crate::specs::Index::save_freg, crate::specs::Index::save_freg_x, crate::specs::Index::alloc_z))]
fn float_save(b: u8, n: u32) -> Op
    requires { (216 ≤ b) × (b < 224) }
    ensures { result ≡ meant (code_of b) n }
{
    let register = FIRST_D + n / 64 % 8;
    let value = UNIT * (n % 64);
    match b {
        // save_fregp
        ..=0xd9 => Op::SaveRegPair(D, register, value),
        // save_fregp_x
        ..=0xdb => Op::SaveRegPairPreindexed(D, register, value + UNIT),
        // save_freg
        ..=0xdd => Op::SaveReg(D, register, value),
        // save_freg_x
        0xde => Op::SaveRegPreindexed(D, FIRST_D + n / 32 % 8, UNIT * (n % 32) + UNIT),
        // alloc_z
        _ => Op::Other,
    }
}

fn two_bytes(b: u8, n: u32) -> Op
    requires { (192 ≤ b) × (b < 224) }
    ensures { result ≡ meant (code_of b) n }
{
    if b < 0xd8 {
        return integer_save(b, n);
    }
    float_save(b, n)
}

// ---- E7: save_any_reg, with second byte s and third byte t

// The bytes of a unit: 16 for a pair, for a pre-indexed save and for q, else 8. The page's bits p and w and its f go side by side: a struct of them
// would stand for three functions of a line each.
fn any_reg_unit(pair: bool, pre_indexed: bool, letter: u32) -> u32
    ensures { result ≡ any_reg_unit pair pre_indexed letter }
{
    if pair | pre_indexed | (letter == Q) {
        WIDE_UNIT
    } else {
        UNIT
    }
}

// A unit more where pre-indexed.
fn any_reg_offset(pair: bool, pre_indexed: bool, letter: u32, units: u32) -> u32
    requires { units < 64 }
    ensures { result ≡ any_reg_offset pair pre_indexed letter units }
{
    any_reg_unit(pair, pre_indexed, letter) * (units + u32::from(pre_indexed))
}

// A body has no kind for a scalable register, saved by save_zreg or save_preg; P0 to P3 of save_preg are reserved.
fn scalable(s: u32) -> Op
    ensures { result ≡ scalable_of s }
{
    if s / 4 % 8 == 4 {
        Op::Undecodable
    } else {
        Op::Other
    }
}

fn any_save(pair: bool, pre_indexed: bool, letter: u32, register: u32, value: u32) -> Op
    ensures { result ≡ save_of pair pre_indexed letter register value }
{
    match (pair, pre_indexed) {
        (false, false) => Op::SaveReg(letter, register, value),
        (false, true) => Op::SaveRegPreindexed(letter, register, value),
        (true, false) => Op::SaveRegPair(letter, register, value),
        (true, true) => Op::SaveRegPairPreindexed(letter, register, value),
    }
}

#[tactic(auto, unfolding(crate::specs::UnwindCodes::any_reg))]
fn any_reg(s: u8, t: u8) -> Op
    ensures { result ≡ any_reg s t }
{
    let (s, t) = (u32::from(s), u32::from(t));
    if 128 <= s {
        return Op::Undecodable;
    }
    let letter = t / 64;
    if letter == 3 {
        return scalable(s);
    }
    let pair = s / 64 == 1;
    let pre_indexed = s / 32 % 2 == 1;
    let value = any_reg_offset(pair, pre_indexed, letter, t % 64);
    any_save(pair, pre_indexed, letter, s % 32, value)
}

// Whether it ends the list: where it is reserved. By the bytes: asked of its operation, a list of these codes took 31 % more instructions.
#[tactic(auto, using(crate::specs::Index::any_high, crate::specs::Index::any_scalable, crate::specs::Index::any_saved))]
fn any_reg_ends(s: u8, t: u8) -> bool
    ensures { result ≡ ends_of (any_reg s t) }
{
    let (s, t) = (u32::from(s), u32::from(t));
    if 128 <= s {
        return true;
    }
    if t / 64 == 3 {
        return ends(scalable(s));
    }
    false
}

// ---- E0 to FF, but for the numbers in alloc_l and save_any_reg

#[tactic(auto, using(crate::specs::Index::no_kind, crate::specs::Index::an_end, crate::specs::Index::save_next, crate::specs::Index::reserved, crate::specs::Index::pac_sign_lr, crate::specs::Index::reserved_last))]
fn no_number(b: u8) -> Op
    requires { (225 ≤ b) × (b ≢ 231) }
    ensures { (n : ℕ) → result ≡ meant (code_of b) n }
{
    // set_fp, add_fp, nop
    if b < END_CODE {
        return Op::Other;
    }
    // end, end_c
    if b < SAVE_NEXT {
        return Op::End;
    }
    match b {
        SAVE_NEXT => Op::SaveNext,
        PAC_SIGN_LR => Op::Other,
        _ => Op::Undecodable,
    }
}

// ---- a code

// Whether it ends the list: an end, or one that is reserved or for a custom stack.
#[tactic(auto, unfolding(arm64::specs::Arm64::words_of))]
fn ends(op: Op) -> bool
    ensures { result ≡ ends_of op }
{
    matches!(op, Op::End | Op::Undecodable)
}

// The bytes from a code on, all of which are there.
#[derive(Clone, Copy)]
pub(crate) struct Code<'a> {
    bytes: &'a [u8],
    ghost some: { 0 < length bytes.now },
    ghost whole: { size_at bytes.now ≤ length bytes.now },
}

impl<'a> Code<'a> {
    // None where the bytes end inside of it.
    pub(crate) fn read(bytes: &'a [u8]) -> Option<Code<'a>>
        requires { 0 < length bytes.now }
        ensures { MatchOption result (whole bytes.now ≡ false) (λ c. (c.bytes.now ≡ bytes.now) × (whole bytes.now ≡ true)) }
    {
        if bytes.len() < size_of(bytes[0]) {
            return None;
        }
        Some(Code { bytes })
    }

    // The same where they are known to have all of it: by `read` and `unwrap` decoding takes 306.8 instructions a function in place of 273.2.
    pub(crate) fn first(bytes: &'a [u8]) -> Code<'a>
        requires { (0 < length bytes.now) × (size_at bytes.now ≤ length bytes.now) }
        ensures { result.bytes.now ≡ bytes.now }
    {
        Code { bytes }
    }

    fn special(self) -> Op
        requires { 224 ≤ get_or self.bytes.now 0 0 }
        ensures { result ≡ operation_at self.entry.bytes.now }
    {
        let bytes = self.bytes;
        let b = bytes[0];
        if b == ALLOC_L {
            let size = u32::from_be_bytes([0, bytes[1], bytes[2], bytes[3]]);
            return Op::AllocStack(WIDE_UNIT * size);
        }
        if b == SAVE_ANY_REG {
            return any_reg(bytes[1], bytes[2]);
        }
        no_number(b)
    }

    pub(crate) fn operation(self) -> Op
        ensures { result ≡ operation_at self.entry.bytes.now }
    {
        let b = self.bytes[0];
        if b < ALLOC_M {
            return one_byte(b);
        }
        if b < ALLOC_L {
            // Not u16::from_be_bytes: with it decoding takes 4 % more instructions, counted on a build without the proofs.
            return two_bytes(b, 256 * u32::from(b) + u32::from(self.bytes[1]));
        }
        self.special()
    }

    // What stands behind it.
    pub(crate) fn rest(self) -> &'a [u8]
        ensures { result.now ≡ drop (size_at self.entry.bytes.now) self.entry.bytes.now }
    {
        &self.bytes[size_of(self.bytes[0])..]
    }

    // Whether it ends the list, by its first byte where that tells: asked of its operation, decoding took 434.5 instructions a
    // function in place of 329.5, the rest alike.
    pub(crate) fn ends(self) -> bool
        ensures { result ≡ ends_of (operation_at self.entry.bytes.now) }
    {
        let bytes = self.bytes;
        let b = bytes[0];
        if b < END_CODE {
            return false;
        }
        if b == SAVE_ANY_REG {
            return any_reg_ends(bytes[1], bytes[2]);
        }
        (b != SAVE_NEXT) & (b != PAC_SIGN_LR)
    }
}
