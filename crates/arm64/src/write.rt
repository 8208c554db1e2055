// The lines of an ARM64 entry, one for each operation: the CFA where the stack grew, the registers that were saved, and the return address.
ghost use Rattle.std.specs.Prelude.{◌++◌, ◌≤◌, T};
ghost use Rattle.text.specs.Text.{Put, ascii};
ghost use Rattle.names.specs.Names.{name_text};
ghost use Rattle.lines.specs.Lines.{rule, register, rule_text};
ghost use Rattle.rules.specs.Rules.{reg_name};
ghost use Rattle.arm64.specs.Arm64.{no_pair, place_text, saved_text, saves_text, writes_ra, cfa_text, ra_text, given, defaults_text, first_line, later_line, nth_line, run, in_reach};
ghost use Rattle.arm64.specs.Encoder.{step_text, Near, EachNear};
ghost use Rattle.arm64.specs.Index.{ops_run};

use crate::body::Body;
use crate::judge::{InReach, LR, X};
use crate::{Op, Saved, Saves};
use lines::{put_init, put_later};
use names::{Name, arm64_register_name};
use rules::{Form, Reg, Rule, cfa_name, difference, put_rule, ra_name};
use text::put_byte;

// ---- the rules of an operation

// " R: .cfa N + ^", where p is saved
fn put_saved(out: &mut [u8], at: usize, name: Name, p: Saved) -> usize
    requires { Near p }
    ensures { Put out.old at (ascii " " ++ name_text name ++ ascii ": " ++ place_text p.a p.b) out.new result }
{
    let x = difference(p.a, p.b);
    let form = Form::AtCfaPlus(x);
    put_rule(out, at, Rule { name, form })
}

// A register where it is saved.
fn put_register(out: &mut [u8], at: usize, p: Saved) -> usize
    requires { Near p }
    ensures { Put out.old at (saved_text p) out.new result }
{
    let name = arm64_register_name(p.letter, p.register as u32);
    put_saved(out, at, name, p)
}

// The registers that an operation saves, and the return address where the second is x30.
fn put_saves(out: &mut [u8], at: usize, saves: Saves) -> usize
    requires { EachNear saves }
    ensures { Put out.old at (saves_text saves) out.new result }
{
    match saves {
        Saves::Nothing => at,
        Saves::Alone(p) => put_register(out, at, p),
        Saves::Paired(p, q) => {
            let at = put_register(out, at, p);
            let at = put_register(out, at, q);
            if q.is_lr() {
                put_saved(out, at, ra_name(), q)
            } else {
                at
            }
        }
    }
}

// The CFA, where the operation just run touched it.
fn put_cfa(out: &mut [u8], at: usize, e: InReach) -> usize
    ensures { Put out.old at (given e.state.cfa_touched (cfa_text e.state.stack_size)) out.new result }
{
    if e.state.cfa_touched {
        let x = difference(e.state.stack_size, 0);
        let name = cfa_name();
        let form = Form::RegisterPlus(Reg::Sp, x);
        return put_rule(out, at, Rule { name, form });
    }
    at
}

// The rules of the operation just run.
fn put_rules(out: &mut [u8], at: usize, e: InReach) -> usize
    ensures { Put out.old at (step_text e.state) out.new result }
{
    let p = put_cfa(out, at, e);
    put_saves(out, p, e.state.saves)
}

// ---- the lines

// What is taken for granted of a register whose rule is not written.
#[tactic(auto, unfolding(rules::specs::Rules::rule_of, rules::specs::Rules::form_of))]
fn put_default(out: &mut [u8], at: usize, name: Name, reg: Reg) -> usize
    ensures { Put out.old at (rule_text (rule (name_text name) (register (reg_name reg)))) out.new result }
{
    let form = Form::Register(reg);
    put_rule(out, at, Rule { name, form })
}

// The defaults of what the operation just run does not write.
fn put_defaults(out: &mut [u8], at: usize, e: InReach) -> usize
    ensures { Put out.old at (defaults_text e.state.cfa_touched (writes_ra e.state.saves)) out.new result }
{
    let mut p = at;
    if !e.state.cfa_touched {
        p = put_default(out, p, cfa_name(), Reg::Sp);
    }
    if !e.state.saves.writes_ra() {
        p = put_default(out, p, ra_name(), Reg::Arm64(X, LR as u32));
    }
    p
}

// The function's first line, with what is taken for granted where it is not written.
fn put_first_line(out: &mut [u8], at: usize, body: &Body, e: InReach) -> usize
    ensures { Put out.old at (first_line body.now.address body.now.size (step_text e.state) (defaults_text e.state.cfa_touched (writes_ra e.state.saves))) out.new result }
{
    let p = put_init(out, at, body.address as u64, body.size as u64);
    let p = put_rules(out, p, e);
    let p = put_defaults(out, p, e);
    put_byte(out, p, b'\n')
}

// Any other line.
fn put_later_line(out: &mut [u8], at: usize, address: u64, e: InReach) -> usize
    ensures { Put out.old at (later_line address (step_text e.state)) out.new result }
{
    let p = put_later(out, at, true, address);
    let p = put_rules(out, p, e);
    put_byte(out, p, b'\n')
}

// Line i.
fn put_line(out: &mut [u8], at: usize, body: &Body, i: usize, e: InReach) -> usize
    requires { i ≤ 1024 }
    ensures { Put out.old at (nth_line body.now.address body.now.size i (step_text e.state) (defaults_text e.state.cfa_touched (writes_ra e.state.saves))) out.new result }
{
    if i == 0 {
        return put_first_line(out, at, body, e);
    }
    put_later_line(out, at, body.line(i), e)
}

// The lines of the operations, run backwards. `reach` goes over them too: a fold for both would hold the slice in a closure, and no proof knows what is
// written there; an iterator would give an Option of a state, for these two alone.
pub(crate) fn put_lines(out: &mut [u8], at: usize, body: &Body) -> usize
    requires { T (in_reach body.now.address 0 0 no_pair (ops_run body.now.ops.now)) }
    ensures { Put out.old at (run body.now.address body.now.size 0 0 no_pair (ops_run body.now.ops.now)) out.new result }
{
    let mut e = InReach::new();
    let mut p = at;
    for (i, words) in body.ops.iter().rev().enumerate() {
        e = e.step(Op::from(*words), body.line(i)).unwrap();
        p = put_line(out, p, body, i, e);
    }
    p
}
