// compare FILE FILE: says whether two books have the same records, each with limit 32 and a text buffer of 1 MiB.
#![tactic(auto)]

use records::Compared;
use std::fs::File;
use std::rt::Files;
use std::{env, io};

const LIMIT: u32 = 32;

// What a call writes to. A book has at most 16,384 words, and none gives 64 bytes of text.
#[derive(Drop)]
struct Buffers {
    work: [u8; 8192],
    text: [u8; 1048576],
}

impl Buffers {
    fn new() -> Buffers {
        Buffers {
            work: [0; 8192],
            text: [0; 1048576],
        }
    }
}

// Says why a file cannot be opened, in the system's words without its number.
fn fail(rt: &(impl Eprint + AllocGlobal), path: &str, error: io::Error) -> io::Result<()> {
    let said = format!(in rt.alloc(); "{error}")?;
    match said.as_str().split_once(" (os error ") {
        Some((reason, _)) => eprintln!(rt; "{path}: {reason}"),
        None => eprintln!(rt; "{path}: {said}"),
    }
}

// The file of this name; none if there is none, which is said.
fn opened<R: Files + Eprint + AllocGlobal>(rt: &R, path: &str) -> io::Result<Option<R::File>> {
    match File::open(rt, path) {
        Ok(file) => Ok(Some(file)),
        Err(error) => {
            fail(rt, path, error)?;
            Ok(None)
        }
    }
}

fn say_refusal(rt: &impl Print, which: &str, book: &[u32]) -> io::Result<()> {
    let mut buffers = Buffers::new();
    let r = translate::translate(book, LIMIT, &mut buffers.work, &mut buffers.text);
    if let Err(refusal) = r.answer {
        println!(rt; "{which} book refused {refusal}")?;
    }
    Ok(())
}

fn compared(a: &[u32], b: &[u32]) -> Compared {
    let mut first = Buffers::new();
    let mut second = Buffers::new();
    records::same_records(
        a,
        LIMIT,
        &mut first.work,
        &mut first.text,
        b,
        LIMIT,
        &mut second.work,
        &mut second.text,
    )
}

fn say(rt: &impl Print, a: &[u32], b: &[u32]) -> io::Result<()> {
    match compared(a, b) {
        Compared::Same => println!(rt; "same records"),
        Compared::Different => println!(rt; "different records"),
        Compared::OtherKind => println!(rt; "books of two kinds"),
        Compared::Refused => {
            say_refusal(rt, "first", a)?;
            say_refusal(rt, "second", b)
        }
    }
}

fn main(rt: HostRuntime) -> io::Result<()> {
    let mut args = env::args(&rt)?;
    let _name = args.next();
    let (Some(first), Some(second), None) = (args.next(), args.next(), args.next()) else {
        return eprintln!(rt; "compare FILE FILE");
    };
    let Some(mut first) = opened(&rt, first.as_str())? else {
        return Ok(());
    };
    let Some(mut second) = opened(&rt, second.as_str())? else {
        return Ok(());
    };
    let mut a = [0; 16384];
    let mut b = [0; 16384];
    let n = input::read_book(&mut first, &mut a);
    let m = input::read_book(&mut second, &mut b);
    say(&rt, &a[..n], &b[..m])
}
