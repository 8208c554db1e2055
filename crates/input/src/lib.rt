// The words of a book that was read as bytes.
#![tactic(auto)]

ghost use Rattle.std.specs.Prelude.{◌≡◌, ◌++◌, ◌*◌, ◌≤◌, ◌<◌, length, take, drop, MatchOption};
ghost use Rattle.std.specs.Io.KnownBytes.{Consumes};
ghost use Rattle.input.specs.Words.{words_of, word_count, IsNoBook, AreWords, Read, Given};

use std::io::Read;

// The bytes of the longest book.
const MOST_BYTES: usize = 65536;

// The words of a book, four bytes each; none where the bytes are no book.
#[tactic(auto, using(crate::specs::Words::Laws::long_none, crate::specs::Words::Laws::broken_none, crate::specs::Words::Laws::whole_words))]
fn book_words(bytes: &[u8]) -> Option<&[[u8; 4]]>
    ensures { MatchOption result (IsNoBook bytes.now) (λ words. AreWords bytes.now words.now) }
{
    if MOST_BYTES < bytes.len() {
        return None;
    }
    let (words, rest) = bytes.as_chunks();
    if !rest.is_empty() {
        return None;
    }
    Some(words)
}

// The words of the bytes, as many as out takes, and their number. Where the bytes are no book, none, and no Option: refusal 3 turns 0 words down,
// and a caller needs no other answer.
pub fn words(bytes: &[u8], out: &mut [u32]) -> usize
    ensures prefix_len { result ≤ length out.new }
    ensures value { result ≡ word_count (length bytes.now) (length out.old) }
    ensures out_after { out.new ≡ words_of bytes.now result ++ drop result out.old }
    ensures read { Read out.old out.new result }
{
    let Some(words) = book_words(bytes) else {
        return 0;
    };
    let n = words.len().min(out.len());
    for (i, word) in words[..n].iter().enumerate() {
        out[i] = u32::from_le_bytes(*word);
    }
    n
}

// Reads until the buffer is full, the input ends or a read fails: how many bytes were put at its start, which the reader then no longer has.
// Not `read_exact`, which fails where the input ends before, nor `read_to_end`, which needs a heap; of a read that fails neither says what it took.
pub fn read_full<R: Read>(reader: &mut R, bytes: &mut [u8]) -> usize
    ensures prefix_len { result ≤ length bytes.new }
    ensures given { Consumes (R.remaining reader.old) (R.remaining reader.new) (take result bytes.new) }
{
    let mut done = 0;
    while done < bytes.len() {
        match reader.read(&mut bytes[done..]) {
            Ok(0) => break,
            Ok(n) => done += n,
            Err(_) => break,
        }
    }
    done
}

// The words of a book that a reader gives; one byte more than the longest book has is read, so that a longer input is seen to be none.
pub fn read_book<R: Read>(reader: &mut R, book: &mut [u32]) -> usize
    ensures prefix_len { result ≤ length book.new }
    ensures read { Read book.old book.new result }
    ensures given { Given (R.remaining reader.old) (R.remaining reader.new) book.old book.new result }
{
    let mut bytes = [0u8; MOST_BYTES + 1];
    let n = read_full(reader, &mut bytes);
    words(&bytes[..n], book)
}
