// The line of an x64 entry: the CFA's rule, a rule for each register that an operation saved, in the order of the run, and the return address.
ghost use Rattle.std.specs.Prelude.{◌≡◌, ◌^◌, ◌<◌, pos, T, Some};
ghost use Rattle.text.specs.Text.{Put, ascii};
ghost use Rattle.tables.specs.Tables.{pe_name};
ghost use Rattle.names.specs.Names.{name_text};
ghost use Rattle.x64.specs.X64.{chain, run, saved_text, framed_text, machine_text, op_text, cfa_text, x64_text};
ghost use Rattle.x64.specs.Index.{reaches};
ghost use Rattle.x64.specs.Scan.{scan_start, scanned, cfa_of};

use crate::body::{Body, SLOT};
use crate::{Op, Scan};
use lines::put_init;
use names::{Name, pe_register_name};
use rules::{Form, Reg, Rule, cfa_name, put_rule, ra_name};
use text::put_byte;

// $rsp among the PE register numbers.
const RSP: u32 = 4;

// How far below the place where it was pushed an interrupt's RSP lies, and its RIP.
const PUSHED_RSP: i64 = 16;

const PUSHED_RIP: i64 = 40;

// ---- the rules that operations write

// " NAME: .cfa N - ^"
#[tactic(auto, using(crate::specs::Index::saved_rule, crate::proofs::Rules::same_i64), unfolding(rules::specs::Rules::rule_of, rules::specs::Rules::form_of))]
fn put_saved(out: &mut [u8], at: usize, name: Name, n: i64) -> usize
    ensures { Put out.old at (saved_text (name_text name) n) out.new result }
{
    let form = Form::AtCfaMinus(n);
    put_rule(out, at, Rule { name, form })
}

// " R: F N + ^"
#[tactic(auto, using(crate::specs::Index::framed_rule, crate::proofs::Rules::same_i64), unfolding(rules::specs::Rules::rule_of, rules::specs::Rules::reg_name, rules::specs::Rules::form_of))]
fn put_framed(out: &mut [u8], at: usize, register: u32, frame: u32, n: i64) -> usize
    ensures { Put out.old at (framed_text (pe_name register) (pe_name frame) n) out.new result }
{
    let name = pe_register_name(register);
    let form = Form::AtRegisterPlus(Reg::Pe(frame), n);
    put_rule(out, at, Rule { name, form })
}

// " .cfa: R N +"
#[tactic(auto, using(crate::specs::Index::cfa_rule_lem, crate::proofs::Rules::same_i64), unfolding(rules::specs::Rules::rule_of, rules::specs::Rules::reg_name, rules::specs::Rules::form_of))]
fn put_cfa(out: &mut [u8], at: usize, register: u32, n: i64) -> usize
    ensures { Put out.old at (cfa_text (pe_name register) n) out.new result }
{
    let name = cfa_name();
    let form = Form::RegisterPlus(Reg::Pe(register), n);
    put_rule(out, at, Rule { name, form })
}

// RSP and RIP as the interrupt pushed them.
fn put_machine(out: &mut [u8], at: usize, total: u32) -> usize
    ensures { Put out.old at (machine_text total) out.new result }
{
    let rsp = pe_register_name(RSP);
    let p = put_saved(out, at, rsp, total as i64 + PUSHED_RSP);
    put_saved(out, p, ra_name(), total as i64 + PUSHED_RIP)
}

// What an operation writes where the total is `total`.
#[tactic(auto, using(text::specs::Text::Laws::put_none, crate::proofs::Rules::sum_is, crate::proofs::Rules::difference_is), unfolding(crate::specs::X64::op_text))]
fn put_op(out: &mut [u8], at: usize, total: u32, op: Op) -> usize
    ensures { Put out.old at (op_text total op) out.new result }
{
    match op {
        Op::PushNonVolatile(register) => {
            let name = pe_register_name(register);
            put_saved(out, at, name, total as i64 + SLOT as i64)
        }
        Op::SaveRsp(register, v) => {
            let name = pe_register_name(register);
            put_saved(out, at, name, total as i64 - v as i64)
        }
        Op::SaveFp(register, v, base) => {
            put_framed(
                out,
                at,
                register,
                base.register,
                v as i64 - base.offset as i64,
            )
        }
        Op::PushMachineFrame(_) => put_machine(out, at, total),
        Op::Alloc(_) | Op::SetFpRegister(..) | Op::Other | Op::Undecodable => at,
    }
}

// The rules of the whole chain, as it is run.
fn put_chain(out: &mut [u8], at: usize, body: Body) -> usize
    requires { T (reaches 8 (chain body.words.now)) }
    ensures { Put out.old at (run op_text 8 (chain body.entry.words.now)) out.new result }
{
    let mut p = at;
    let mut total = SLOT;
    for op in body.chain() {
        p = put_op(out, p, total, op);
        total += op.growth();
    }
    p
}

// ---- the line

// The CFA rule: from the frame register where one is set, else from $rsp.
#[tactic(auto, using(crate::proofs::Rules::difference_is, std::proofs::lemmas::Int::to_z_pos), unfolding(crate::specs::Scan::cfa_of, tables::specs::Tables::pe_name, tables::specs::Tables::pe_x64))]
fn put_scan(out: &mut [u8], at: usize, scan: Scan) -> usize
    ensures { Put out.old at (cfa_of scan) out.new result }
{
    match scan.frame {
        Some(frame) => put_cfa(
            out,
            at,
            frame.base.register,
            frame.place as i64 - frame.base.offset as i64,
        ),
        None => put_cfa(out, at, RSP, scan.total as i64),
    }
}

// The line; `scan` is what the chain came to, handed over beside the body: a struct of both would be made for this one call.
pub(crate) fn put_entry(out: &mut [u8], at: usize, body: Body, scan: Scan) -> usize
    requires { scanned scan_start (chain body.words.now) ≡ Some scan }
    ensures { Put out.old at (x64_text body.entry.words.now) out.new result }
{
    let begin = body.begin();
    let size = body.end().saturating_sub(begin);
    let mut p = put_init(out, at, begin as u64, size as u64);
    p = put_scan(out, p, scan);
    p = put_chain(out, p, body);
    if !scan.machine {
        p = put_saved(out, p, ra_name(), SLOT as i64);
    }
    put_byte(out, p, b'\n')
}
