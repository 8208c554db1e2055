// Replays a sample of the Rust's answers from standard input: calls the port on each book, and compares the number, the entries, the length and the
// text. Prints the index of each case that differs, then 'N cases, M differ'.
//
// Little-endian words, as oracle/README.md has them: the number of cases; for each its limit, number, entries, text length in bytes, book length in
// words, the book, the text padded with zeros to whole words. Another run of cases may follow, with its own number before it.
#![tactic(auto)]

use refusal::answer_number;
use std::io;
use std::io::Read;

// The largest book and the longest text of a case, in words and in bytes; a case that has more counts as one that differs.
const MOST_WORDS: usize = 4096;

const MOST_TEXT: usize = 8192;

// A run of more cases counts as one of none.
const MOST_CASES: u32 = 65536;

const MOST_RUNS: u32 = 16;

// A call, and what is due of it.
#[derive(Clone, Copy)]
struct Case<'a> {
    limit: u32,
    number: u32,
    entries: u32,
    book: &'a [u32],
    text: &'a [u8],
}

impl Case<'_> {
    // Whether the port answers as is due.
    fn agrees(self) -> bool {
        let mut work = [0; 8192];
        let mut text = [0; 65536];
        let r = translate::translate(self.book, self.limit, &mut work, &mut text);
        answer_number(r.answer) == self.number
            && r.entries == self.entries as usize
            && &text[..r.length] == self.text
    }
}

// ---- reading

// The next word of the input, and 0 where it ends before the word does.
fn read_word<R: Read>(reader: &mut R) -> u32 {
    let mut bytes = [0; 4];
    match input::read_full(reader, &mut bytes) {
        4 => u32::from_le_bytes(bytes),
        _ => 0,
    }
}

// Whether the port answers the next case of the input as is due; not where the case's book or its text is too long. Behind the input's end are zeros.
fn next_agrees<R: Read>(reader: &mut R) -> bool {
    let limit = read_word(reader);
    let number = read_word(reader);
    let entries = read_word(reader);
    let length = read_word(reader) as usize;
    let size = read_word(reader) as usize;
    if MOST_TEXT < length || MOST_WORDS < size {
        return false;
    }
    let mut bytes = [0; 4 * MOST_WORDS];
    let mut book = [0; MOST_WORDS];
    let mut text = [0; MOST_TEXT];
    input::read_full(reader, &mut bytes[..4 * size]);
    input::read_full(reader, &mut text[..length.next_multiple_of(4)]);
    input::words(&bytes[..4 * size], &mut book);
    let case = Case {
        limit,
        number,
        entries,
        book: &book[..size],
        text: &text[..length],
    };
    case.agrees()
}

// How many cases the next run has.
fn read_count<R: Read>(reader: &mut R) -> u64 {
    match read_word(reader) {
        count @ ..=MOST_CASES => count as u64,
        _ => 0,
    }
}

fn main(rt: HostRuntime) -> io::Result<()> {
    let mut reader = rt.reader();
    let mut done = 0u64;
    let mut differ = 0u64;
    for _ in 0..MOST_RUNS {
        let end = done.saturating_add(read_count(&mut reader));
        for index in done..end {
            if !next_agrees(&mut reader) {
                println!(rt; "{index} differs")?;
                differ = differ.saturating_add(1);
            }
        }
        done = end;
    }
    println!(rt; "{done} cases, {differ} differ")
}
