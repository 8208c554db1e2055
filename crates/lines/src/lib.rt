// The lines of a Breakpad symbol file that tell how to unwind: how STACK CFI and STACK WIN lines begin. `rules` has what follows in a CFI line.
#![tactic(auto)]

ghost use Rattle.text.specs.Text.{Put};
ghost use Rattle.lines.specs.Lines.{init_text, later_text, field, flag, win_text};

use digits::put_hex;
use text::{put_byte, put_bytes};

// An address of an image, relative to its start.
#[derive(Clone, Copy, PartialEq, Eq)]
pub struct Rva(pub u32);

// The numbers of a STACK WIN line, in its order; `ty` is one of them, and printed as it is.
#[derive(Clone, Copy)]
pub struct StackInfo {
    pub ty: u32,
    pub start: Rva,
    pub code_size: u32,
    pub prolog_size: u32,
    pub epilog_size: u32,
    pub params_size: u32,
    pub saved_regs_size: u32,
    pub locals_size: u32,
    pub max_stack_size: u32,
}

// The beginning of a function's first line.
pub fn put_init(out: &mut [u8], at: usize, address: u64, size: u64) -> usize
    ensures { Put out.old at (init_text address size) out.new result }
{
    let p = put_bytes(out, at, b"STACK CFI INIT ");
    let p = put_hex(out, p, address);
    let p = put_byte(out, p, b' ');
    put_hex(out, p, size)
}

// The beginning of a later line; `six` for the six spaces of ARM64 records: an enum of the two would be made at a caller only to be matched here.
pub fn put_later(out: &mut [u8], at: usize, six: bool, address: u64) -> usize
    ensures { Put out.old at (later_text six address) out.new result }
{
    let start: &[u8] = if six {
        b"STACK CFI      "
    } else {
        b"STACK CFI "
    };
    let p = put_bytes(out, at, start);
    put_hex(out, p, address)
}

fn put_field(out: &mut [u8], at: usize, x: u32) -> usize
    ensures { Put out.old at (field x) out.new result }
{
    let p = put_hex(out, at, x as u64);
    put_byte(out, p, b' ')
}

// By a bool, as the line's definition has it: 1 where a program follows.
fn put_flag(out: &mut [u8], at: usize, program: bool) -> usize
    ensures { Put out.old at (flag program) out.new result }
{
    put_bytes(out, at, if program { b"1 " } else { b"0 " })
}

// A STACK WIN line up to its tail; `program` is the flag that a program follows. An array of the numbers and a loop would name each as well.
pub fn put_stack_info(out: &mut [u8], at: usize, info: StackInfo, program: bool) -> usize
    ensures { Put out.old at (win_text info program) out.new result }
{
    let p = put_bytes(out, at, b"STACK WIN ");
    let p = put_field(out, p, info.ty);
    let p = put_field(out, p, info.start.0);
    let p = put_field(out, p, info.code_size);
    let p = put_field(out, p, info.prolog_size);
    let p = put_field(out, p, info.epilog_size);
    let p = put_field(out, p, info.params_size);
    let p = put_field(out, p, info.saved_regs_size);
    let p = put_field(out, p, info.locals_size);
    let p = put_field(out, p, info.max_stack_size);
    put_flag(out, p, program)
}
