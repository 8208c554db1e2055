// The rules of a STACK CFI line: a name, and how what it names is found.
#![tactic(auto)]

ghost use Rattle.std.specs.Prelude.{◌≡◌, ◌++◌, ◌^◌, ◌<◌};
ghost use Rattle.std.proofs.Math.IntN.{sub_ℕ};
ghost use Rattle.text.specs.Text.{Put, ascii};
ghost use Rattle.names.specs.Names.{name_text};
ghost use Rattle.lines.specs.Lines.{amount, form_text, rule_text};
ghost use Rattle.rules.specs.Rules.{reg_name, form_of, rule_of};

use digits::put_signed;
use names::{Name, name_of, put_name};
use text::{put_byte, put_bytes};

// A register that a rule speaks of.
#[derive(Clone, Copy)]
pub enum Reg {
    // the stack pointer in ARM64 records, `.sp`
    Sp,
    // x64 unwind codes: the register's number
    Pe(u32),
    // DWARF rows: CPU family and register number, as the body has them; any number is one, and a family that is none has no names
    Cfi(u32, u32),
    // ARM64 unwind codes: letter and number, as the body has them; every word is a letter, so that a narrower type would ask more of callers
    Arm64(u32, u32),
}

// How a value is found. `At` forms load what stands at the address.
#[derive(Clone, Copy)]
pub enum Form {
    Register(Reg),
    RegisterPlus(Reg, i64),
    AtRegisterPlus(Reg, i64),
    CfaPlus(i64),
    AtCfaPlus(i64),
    AtCfaMinus(i64),
}

// A name, of what the rule gives, and how that is found.
#[derive(Clone, Copy)]
pub struct Rule {
    pub name: Name,
    pub form: Form,
}

// The canonical frame address, as the name of a rule.
pub fn cfa_name() -> Name
    ensures { name_text result ≡ ascii ".cfa" }
{
    name_of(b".cfa")
}

// The return address, as the name of a rule.
pub fn ra_name() -> Name
    ensures { name_text result ≡ ascii ".ra" }
{
    name_of(b".ra")
}

#[tactic(auto, unfolding(crate::specs::Rules::reg_name))]
fn put_reg(out: &mut [u8], at: usize, reg: Reg) -> usize
    ensures { Put out.old at (reg_name reg) out.new result }
{
    match reg {
        Reg::Sp => put_bytes(out, at, b".sp"),
        Reg::Pe(register) => names::put_pe_name(out, at, register),
        Reg::Cfi(family, register) => names::put_cfi_name(out, at, family, register),
        Reg::Arm64(letter, register) => names::put_arm64_name(out, at, letter, register),
    }
}

// A space, the number, and the operators that follow it.
fn put_amount(out: &mut [u8], at: usize, x: i64, operators: &[u8]) -> usize
    ensures { Put out.old at (amount x operators.now) out.new result }
{
    let p = put_byte(out, at, b' ');
    let p = put_signed(out, p, x);
    put_bytes(out, p, operators)
}

// This and the next differ in what stands before the amount; what they share is put_amount.
fn put_from_register(out: &mut [u8], at: usize, reg: Reg, x: i64, operators: &[u8]) -> usize
    ensures { Put out.old at (reg_name reg ++ amount x operators.now) out.new result }
{
    let p = put_reg(out, at, reg);
    put_amount(out, p, x, operators)
}

fn put_from_cfa(out: &mut [u8], at: usize, x: i64, operators: &[u8]) -> usize
    ensures { Put out.old at (ascii ".cfa" ++ amount x operators.now) out.new result }
{
    let p = put_bytes(out, at, b".cfa");
    put_amount(out, p, x, operators)
}

#[tactic(auto, unfolding(lines::specs::Lines::form_text, crate::specs::Rules::form_of))]
fn put_form(out: &mut [u8], at: usize, form: Form) -> usize
    ensures { Put out.old at (form_text (form_of form)) out.new result }
{
    match form {
        Form::Register(reg) => put_reg(out, at, reg),
        Form::RegisterPlus(reg, x) => put_from_register(out, at, reg, x, b" +"),
        Form::AtRegisterPlus(reg, x) => put_from_register(out, at, reg, x, b" + ^"),
        Form::CfaPlus(x) => put_from_cfa(out, at, x, b" +"),
        Form::AtCfaPlus(x) => put_from_cfa(out, at, x, b" + ^"),
        Form::AtCfaMinus(x) => put_from_cfa(out, at, x, b" - ^"),
    }
}

// " NAME: FORM"
pub fn put_rule(out: &mut [u8], at: usize, rule: Rule) -> usize
    ensures { Put out.old at (rule_text (rule_of rule)) out.new result }
{
    let p = put_byte(out, at, b' ');
    let p = put_name(out, p, rule.name);
    let p = put_bytes(out, p, b": ");
    put_form(out, p, rule.form)
}

// a - b, for the number of a rule
pub fn difference(a: u64, b: u64) -> i64
    requires { (a < 2 ^ 63) × (b < 2 ^ 63) }
    ensures { result ≡ sub_ℕ a b }
{
    a.cast_signed() - b.cast_signed()
}
