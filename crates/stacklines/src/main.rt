// Reads a book from standard input, with limit 32 and a text buffer of 65,536 bytes, and prints its text,
// then "refused N" if it is refused. Input that is no book, as `input` says, counts as refused 3.
#![tactic(auto)]

use std::io;

const LIMIT: u32 = 32;

// By itself, so that its buffers and that of the reading are not on the stack at once.
fn answer(rt: &impl Print, book: &[u32]) -> io::Result<()> {
    let mut work = [0; 8192];
    let mut text = [0; 65536];
    let r = translate::translate(book, LIMIT, &mut work, &mut text);
    rt.write_all(&text[..r.length])?;
    if let Err(refusal) = r.answer {
        println!(rt; "refused {refusal}")?;
    }
    Ok(())
}

fn main(rt: HostRuntime) -> io::Result<()> {
    let mut book = [0; 16384];
    let n = input::read_book(&mut rt.reader(), &mut book);
    answer(&rt, &book[..n])
}
