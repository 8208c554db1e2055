// Names of registers as records write them: in fixed bytes with a length, and put into a slice. A family or a letter and a register stay two numbers:
// as a struct they would be put together at each call to be taken apart in it. The calls for each of the two numberings, DWARF's and PE's, are public
// and stay two, as their tables are.
#![tactic(auto)]

ghost use Rattle.std.specs.Prelude.{◌≡◌, [], ◌∷◌, ◌<◌, take};
ghost use Rattle.digits.specs.Digits.{decimal};
ghost use Rattle.text.specs.Tests.{any};
ghost use Rattle.text.specs.Text.{Put};
ghost use Rattle.tables.specs.Tables.{pe_name};
ghost use Rattle.names.specs.Names.{arm64_cfi_name, cfi_name, letter_of, arm64_name, name_text};

use digits::put_decimal;
use tables::{listed_name, pe_name};
use text::{put_byte, put_bytes, put_front};

// A name in fixed bytes with its length, as document 01 wants it; length 0: no name.
#[derive(Clone, Copy)]
pub struct Name {
    pub bytes: [u8; 8],
    pub len: usize,
}

// The families of 64-bit ARM. Their names go by rule, any other's by its table.
const ARM64: u32 = 4;

const ARM64_32: u32 = 9;

#[tactic(auto, unfolding(text::specs::Tests::any, crate::specs::Names::arm64_cfi_name))]
fn has_arm64_cfi_name(register: u32) -> bool
    ensures { result ≡ any (arm64_cfi_name register) }
{
    matches!(register, 0..=31 | 64..=95)
}

#[tactic(auto, using(crate::proofs::Short::some_any), unfolding(crate::specs::Names::cfi_name))]
pub fn has_cfi_name(family: u32, register: u32) -> bool
    ensures { result ≡ any (cfi_name family register) }
{
    match family {
        ARM64 | ARM64_32 => has_arm64_cfi_name(register),
        _ => !listed_name(family, register).is_empty(),
    }
}

// The first eight bytes of a text.
#[tactic(auto, using(crate::proofs::Short::name_whole, crate::proofs::Short::front_short), unfolding(crate::specs::Names::name_text))]
pub fn name_of(text: &[u8]) -> Name
    ensures { name_text result ≡ take 8 text.now }
{
    let mut bytes = [0; 8];
    let len = put_front(&mut bytes, 0, text, 8);
    Name { bytes, len }
}

#[tactic(auto, using(crate::proofs::Short::name_whole, crate::proofs::Short::cfi_short), unfolding(crate::specs::Names::name_text))]
pub fn cfi_register_name(family: u32, register: u32) -> Name
    ensures { name_text result ≡ cfi_name family register }
{
    let mut bytes = [0; 8];
    let len = put_cfi_name(&mut bytes, 0, family, register);
    Name { bytes, len }
}

#[tactic(auto, using(crate::proofs::Short::pe_whole))]
pub fn pe_register_name(register: u32) -> Name
    ensures { name_text result ≡ pe_name register }
{
    name_of(pe_name(register))
}

// The letter of a register is a word of the body, and every word is one: an enum of three would be made here only to be matched here.
#[tactic(auto, unfolding(crate::specs::Names::letter_of))]
fn letter_byte(letter: u32) -> u8
    ensures { result ∷ [] ≡ letter_of letter }
{
    match letter {
        0 => b'x',
        1 => b'd',
        _ => b'q',
    }
}

// A register of ARM64 unwind codes, by its letter and number: below 1,000, so that the name has its eight bytes.
#[tactic(auto, using(crate::proofs::Short::name_whole, crate::proofs::Short::arm64_short), unfolding(crate::specs::Names::name_text))]
pub fn arm64_register_name(letter: u32, register: u32) -> Name
    requires { register < 1000 }
    ensures { name_text result ≡ arm64_name letter register }
{
    let mut bytes = [0; 8];
    let len = put_arm64_name(&mut bytes, 0, letter, register);
    Name { bytes, len }
}

// Byte by byte: by put_front a word of real x64 books takes 75.4 instructions in place of 72.6, of ARM64 99.2 in place of 96.3.
pub fn put_name(out: &mut [u8], at: usize, name: Name) -> usize
    ensures { Put out.old at (name_text name) out.new result }
{
    let mut p = at;
    for b in name.bytes.iter().take(name.len) {
        p = put_byte(out, p, *b);
    }
    p
}

// A letter and a number behind it.
fn put_numbered(out: &mut [u8], at: usize, letter: u8, number: u32) -> usize
    ensures { Put out.old at (letter ∷ decimal number) out.new result }
{
    let p = put_byte(out, at, letter);
    put_decimal(out, p, number as u64)
}

#[tactic(auto, using(text::specs::Text::Laws::put_none), unfolding(crate::specs::Names::arm64_cfi_name))]
fn put_arm64_cfi_name(out: &mut [u8], at: usize, register: u32) -> usize
    ensures { Put out.old at (arm64_cfi_name register) out.new result }
{
    match register {
        ..=30 => put_numbered(out, at, b'x', register),
        31 => put_bytes(out, at, b"sp"),
        64..=95 => put_numbered(out, at, b'v', register - 64),
        _ => at,
    }
}

#[tactic(auto, unfolding(crate::specs::Names::cfi_name))]
pub fn put_cfi_name(out: &mut [u8], at: usize, family: u32, register: u32) -> usize
    ensures { Put out.old at (cfi_name family register) out.new result }
{
    match family {
        ARM64 | ARM64_32 => put_arm64_cfi_name(out, at, register),
        _ => put_bytes(out, at, listed_name(family, register)),
    }
}

pub fn put_pe_name(out: &mut [u8], at: usize, register: u32) -> usize
    ensures { Put out.old at (pe_name register) out.new result }
{
    put_bytes(out, at, pe_name(register))
}

// Any number, also one above 999.
pub fn put_arm64_name(out: &mut [u8], at: usize, letter: u32, register: u32) -> usize
    ensures { Put out.old at (arm64_name letter register) out.new result }
{
    let p = put_byte(out, at, b'.');
    put_numbered(out, p, letter_byte(letter), register)
}
