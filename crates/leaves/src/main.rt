// Prints what the leaves write, a line for each answer: names, numbers, rules and beginnings of lines.
// tests/leaves.rs compares the output with Rust's own formatting and with the tables of the Rust source.
#![tactic(auto)]

use digits::{put_decimal, put_hex};
use lines::StackInfo;
use names::Name;
use rules::{Form, Reg, Rule};
use std::io;
use text::{put_byte, put_bytes};

// How far the loops below count: past the last family, past every table, past the last letter.
const FAMILIES: u32 = 12;

const REGISTERS: u32 = 256;

const LETTERS: u32 = 4;

// What stands for a number far beyond these.
const FAR: u32 = u32::MAX;

// A line: the word, and what `put` puts behind it; nothing where the line is longer than its room.
fn show<F: FnOnce(&mut [u8], usize) -> usize>(
    rt: &impl Print,
    word: &[u8],
    put: F,
) -> io::Result<()>
    requires { F.IsAlwaysCallable put }
{
    let mut line = [0u8; 128];
    let p = put_bytes(&mut line, 0, word);
    let n = put(&mut line, p);
    if n <= line.len() {
        rt.write_all(&line[..n])?;
        rt.write_all(b"\n")?;
    }
    Ok(())
}

// ---- names

fn put_number(out: &mut [u8], at: usize, n: u32) -> usize {
    let p = put_decimal(out, at, n as u64);
    put_byte(out, p, b' ')
}

fn show_cfi(rt: &impl Print, family: u32, register: u32) -> io::Result<()> {
    if !names::has_cfi_name(family, register) {
        return Ok(());
    }
    show(rt, b"cfi ", |out, p| {
        let p = put_number(out, p, family);
        let p = put_number(out, p, register);
        names::put_cfi_name(out, p, family, register)
    })
}

fn show_pe(rt: &impl Print, register: u32) -> io::Result<()> {
    // by its length: there is no has_pe_name
    if names::pe_register_name(register).len == 0 {
        return Ok(());
    }
    show(rt, b"pe ", |out, p| {
        let p = put_number(out, p, register);
        names::put_pe_name(out, p, register)
    })
}

fn show_arm64(rt: &impl Print, letter: u32, register: u32) -> io::Result<()> {
    show(rt, b"arm64 ", |out, p| {
        let p = put_number(out, p, letter);
        let p = put_number(out, p, register);
        names::put_arm64_name(out, p, letter, register)
    })
}

fn show_family(rt: &impl Print, family: u32) -> io::Result<()> {
    for register in 0..REGISTERS {
        show_cfi(rt, family, register)?;
    }
    show_cfi(rt, family, 65535)?;
    show_cfi(rt, family, FAR)
}

// Families 0 to 10 are `CpuFamily`'s; no other number is one.
fn show_families(rt: &impl Print) -> io::Result<()> {
    for family in 0..FAMILIES {
        show_family(rt, family)?;
    }
    show_family(rt, FAR)
}

fn show_pe_names(rt: &impl Print) -> io::Result<()> {
    for register in 0..REGISTERS {
        show_pe(rt, register)?;
    }
    show_pe(rt, FAR)
}

fn show_arm64_names(rt: &impl Print) -> io::Result<()> {
    for letter in 0..LETTERS {
        for register in [0, 9, 30, 255] {
            show_arm64(rt, letter, register)?;
        }
    }
    show_arm64(rt, FAR, FAR)
}

// ---- numbers

fn show_number(rt: &impl Print, x: u64) -> io::Result<()> {
    show(rt, b"hex ", |out, p| put_hex(out, p, x))?;
    show(rt, b"decimal ", |out, p| put_decimal(out, p, x))
}

// A number and its neighbours; beside 0 stands the largest.
fn show_around(rt: &impl Print, x: u64) -> io::Result<()> {
    show_number(rt, x.wrapping_sub(1))?;
    show_number(rt, x)?;
    show_number(rt, x.wrapping_add(1))
}

// The powers of 2, and so those of 16, up to 2^63.
fn show_powers_of_2(rt: &impl Print) -> io::Result<()> {
    for k in 0..64u32 {
        show_around(rt, 1 << k)?;
    }
    Ok(())
}

// The powers of 10 up to 10^19, the last below 2^64.
fn show_powers_of_10(rt: &impl Print) -> io::Result<()> {
    for k in 0..20 {
        show_around(rt, 10u64.pow(k))?;
    }
    Ok(())
}

const SIGNED: [i64; 28] = [
    0,
    1,
    -1,
    8,
    -8,
    9,
    -9,
    10,
    -10,
    99,
    -99,
    100,
    -100,
    65535,
    -65536,
    2147483647,
    -2147483647,
    2147483648,
    -2147483648,
    -2147483649,
    4294967295,
    -4294967296,
    1000000000000000000,
    -1000000000000000000,
    999999999999999999,
    i64::MAX,
    -i64::MAX,
    i64::MIN,
];

fn show_signed_numbers(rt: &impl Print) -> io::Result<()> {
    for x in SIGNED {
        show(rt, b"signed ", |out, p| digits::put_signed(out, p, x))?;
    }
    Ok(())
}

// How long the number is, written where there is room for one byte.
fn show_measured(rt: &impl Print, x: u64) -> io::Result<()> {
    let length = put_hex(&mut [0u8; 1], 0, x);
    show(
        rt,
        b"measured ",
        |out, p| put_decimal(out, p, length as u64),
    )
}

// ---- rules

// The six forms.
fn show_forms(rt: &impl Print, name: Name, reg: Reg, x: i64) -> io::Result<()> {
    for form in [
        Form::Register(reg),
        Form::RegisterPlus(reg, x),
        Form::AtRegisterPlus(reg, x),
        Form::CfaPlus(x),
        Form::AtCfaPlus(x),
        Form::AtCfaMinus(x),
    ] {
        show(
            rt,
            b"rule",
            |out, p| rules::put_rule(out, p, Rule { name, form }),
        )?;
    }
    Ok(())
}

fn show_rules(rt: &impl Print) -> io::Result<()> {
    show_forms(rt, rules::cfa_name(), Reg::Pe(4), 48)?;
    show_forms(rt, rules::ra_name(), Reg::Sp, -8)?;
    show_forms(rt, names::pe_register_name(3), Reg::Pe(5), 0)?;
    show_forms(
        rt,
        names::cfi_register_name(2, 58),
        Reg::Cfi(7, 29),
        i64::MAX,
    )?;
    show_forms(
        rt,
        names::arm64_register_name(0, 29),
        Reg::Arm64(1, 8),
        i64::MIN,
    )?;
    show_forms(rt, names::name_of(b".sp"), Reg::Arm64(2, 255), 2147483647)
}

// ---- beginnings of lines

fn show_init(rt: &impl Print, address: u64, size: u64) -> io::Result<()> {
    show(
        rt,
        b"init ",
        |out, p| lines::put_init(out, p, address, size),
    )
}

fn show_later(rt: &impl Print, six: bool, address: u64) -> io::Result<()> {
    show(
        rt,
        b"later ",
        |out, p| lines::put_later(out, p, six, address),
    )
}

fn show_stack_info(rt: &impl Print, info: StackInfo, program: bool) -> io::Result<()> {
    show(rt, b"win ", |out, p| {
        let p = lines::put_stack_info(out, p, info, program);
        put_byte(out, p, b'.')
    })
}

// Nine numbers from `x` on, so that each field differs.
fn fields(x: u32) -> StackInfo {
    StackInfo {
        ty: x,
        start: lines::Rva(x.wrapping_add(1)),
        code_size: x.wrapping_add(2),
        prolog_size: x.wrapping_add(3),
        epilog_size: x.wrapping_add(4),
        params_size: x.wrapping_add(5),
        saved_regs_size: x.wrapping_add(6),
        locals_size: x.wrapping_add(7),
        max_stack_size: x.wrapping_add(8),
    }
}

fn show_lines(rt: &impl Print) -> io::Result<()> {
    show_init(rt, 0x1000, 0x40)?;
    show_init(rt, 0, 0)?;
    show_init(rt, u64::MAX, u64::MAX)?;
    show_later(rt, false, 0x1000)?;
    show_later(rt, true, 0x1004)?;
    show_later(rt, false, u64::MAX)?;
    show_later(rt, true, 0)?;
    show_stack_info(rt, fields(0), false)?;
    show_stack_info(rt, fields(8), true)?;
    show_stack_info(rt, fields(0xffff_fff8), true)
}

fn main(rt: HostRuntime) -> io::Result<()> {
    show_families(&rt)?;
    show_pe_names(&rt)?;
    show_arm64_names(&rt)?;
    show_around(&rt, 0)?;
    show_powers_of_2(&rt)?;
    show_powers_of_10(&rt)?;
    show_signed_numbers(&rt)?;
    show_measured(&rt, 0)?;
    show_measured(&rt, u64::MAX)?;
    show_rules(&rt)?;
    show_lines(&rt)
}
