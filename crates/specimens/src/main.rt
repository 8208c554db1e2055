// Runs the cases of standard input: the specimens of document 01 without a star (docs/BOOK.md says what that is), and books of all four kinds on
// both sides of the limits.
//
// A case is a line 'NAME | LIMIT WORK TEXT | WORDS': a name, the limit and how long the work area and the text buffer are, the book's words in decimal.
// N* stands for the last three words N times more, and N: for the last two. A line without two bars is a comment, and so is one with a # before.
//
// For each case it prints the name, the number, the entries and the length; how many bytes of the work area are zero, and how many of the rest are as
// they were; how many of the text buffer's rest are as they were. A text that is not long stands below it. Where no limit and lengths are given, it
// prints the numbers for each limit from 0 to 33.
#![tactic(auto)]

use arrayvec::ArrayVec;
use refusal::answer_number;
use std::io;
use std::io::Read;

// What stands in both buffers before a call.
const BEFORE: u8 = 46;

// The work area's bytes that a call uses.
const AREA: usize = 8192;

// A text of so many bytes is long.
const LONG: usize = 200;

// No more lines are read, and what is longer than a line counts as several.
const MOST_LINES: u32 = 4096;

const MOST_LINE: usize = 1000;

// No more words of a book are kept: more than a book may have.
const MOST_WORDS: usize = 16400;

// The longest work area and the longest text buffer of a case.
const MOST_ROOM: usize = 9000;

// The limit of a call, and how long its buffers are.
#[derive(Clone, Copy)]
struct Given {
    limit: u32,
    work: usize,
    text: usize,
}

#[derive(Clone, Copy)]
struct Case<'a> {
    name: &'a [u8],
    given: Option<Given>,
    book: &'a [u32],
}

// ---- reading

// The next line of the input, with its newline. A zero byte, the input's end and a read that fails end a line too.
fn read_line<R: Read + Drop>(reader: &mut R) -> ArrayVec<u8, MOST_LINE> {
    let mut line = ArrayVec::new();
    for byte in reader.by_ref().bytes().take(MOST_LINE) {
        let Ok(byte @ 1..) = byte else {
            break;
        };
        if line.try_push(byte).is_err() || byte == b'\n' {
            break;
        }
    }
    line
}

// The last words of this width so many times more, as far as there is room, and nothing where there are fewer.
fn repeat<const N: usize>(words: &mut ArrayVec<u32, N>, width: usize, times: u32) {
    for _ in 0..times {
        for _ in 0..width {
            let Some(word) = words
                .len()
                .checked_sub(width)
                .and_then(|i| words.get(i).copied())
            else {
                return;
            };
            if words.try_push(word).is_err() {
                return;
            }
        }
    }
}

// The number that a word's digits end with. A number that is too large is none, and the digit behind it begins another.
fn number(word: &[u8]) -> Option<u32> {
    word.iter()
        .filter_map(|c| char::from(*c).to_digit(10))
        .fold(None, |n: Option<u32>, digit| match n {
            Some(n) => n.checked_mul(10)?.checked_add(digit),
            None => Some(digit),
        })
}

// The words of a part of a line, as many as there is room for. Each ends with what is no digit.
fn read_words<const N: usize>(part: &[u8], words: &mut ArrayVec<u32, N>) {
    for word in part.split_inclusive(|c| !c.is_ascii_digit()) {
        let Some(n) = number(word) else {
            continue;
        };
        match word.last() {
            Some(b'*') => repeat(words, 3, n),
            Some(b':') => repeat(words, 2, n),
            _ => {
                if words.try_push(n).is_err() {
                    break;
                }
            }
        }
    }
}

impl Given {
    fn read(part: &[u8]) -> Option<Given> {
        let mut words = ArrayVec::<u32, 3>::new();
        read_words(part, &mut words);
        let [limit, work, text] = *words.as_slice() else {
            return None;
        };
        Some(Given {
            limit,
            work: work as usize,
            text: text as usize,
        })
    }
}

// The case of a line is run; a comment is none. The byte before the first bar is no part of the name.
fn run(rt: &impl Print, line: &[u8]) -> io::Result<()> {
    if line.starts_with(b"#") {
        return Ok(());
    }
    let mut parts = line.splitn(3, |c| *c == b'|');
    let (Some(name), Some(given), Some(book)) = (parts.next(), parts.next(), parts.next()) else {
        return Ok(());
    };
    let mut words = ArrayVec::<u32, MOST_WORDS>::new();
    read_words(book, &mut words);
    let case = Case {
        name: name.split_last().map_or(name, |(_, name)| name),
        given: Given::read(given),
        book: words.as_slice(),
    };
    case.run(rt)
}

// ---- calls, and what is printed of them

// How many of the bytes are this one.
fn count(bytes: &[u8], byte: u8) -> usize {
    bytes.iter().filter(|b| **b == byte).count()
}

impl Case<'_> {
    fn run(self, rt: &impl Print) -> io::Result<()> {
        rt.write_all(self.name)?;
        match self.given {
            Some(given) => self.call(rt, given),
            None => self.limits(rt),
        }
    }

    // Where a buffer would be too long, nothing is called. Not inlined, as `limits`: the buffers of both are not on the stack at once.
    #[inline(never)]
    fn call(self, rt: &impl Print, given: Given) -> io::Result<()> {
        if MOST_ROOM < given.work.max(given.text) {
            return Ok(());
        }
        let mut work = [BEFORE; MOST_ROOM];
        let mut text = [BEFORE; MOST_ROOM];
        let (work, text) = (&mut work[..given.work], &mut text[..given.text]);
        let r = translate::translate(self.book, given.limit, work, text);
        let number = answer_number(r.answer);
        print!(rt; ": {number} {} {}", r.entries, r.length)?;
        let beyond = work.get(AREA..).unwrap_or_default();
        print!(rt; ", work {} {}", count(work, 0), count(beyond, BEFORE))?;
        let (written, rest) = text.split_at(r.length);
        println!(rt; ", text {}", count(rest, BEFORE))?;
        if r.length < LONG {
            rt.write_all(written)?;
        }
        Ok(())
    }

    #[inline(never)]
    fn limits(self, rt: &impl Print) -> io::Result<()> {
        print!(rt; ":")?;
        for limit in 0..34 {
            let mut work = [BEFORE; AREA];
            let mut text = [BEFORE; 1000];
            let r = translate::translate(self.book, limit, &mut work, &mut text);
            print!(rt; " {}", answer_number(r.answer))?;
        }
        println!(rt)
    }
}

fn main(rt: HostRuntime) -> io::Result<()> {
    let mut reader = rt.reader();
    for _ in 0..MOST_LINES {
        let line = read_line(&mut reader);
        if line.is_empty() {
            break;
        }
        run(&rt, &line)?;
    }
    Ok(())
}
