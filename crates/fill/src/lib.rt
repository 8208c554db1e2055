// What the decoders share, which fill lent room: words put into it. As the writers of text, put_words takes the room and a place, and returns the
// place behind. That the words fit is asked of callers, who have counted them: room and place are two parameters, so that no struct holds the fact.
#![tactic(auto)]

ghost use Rattle.std.specs.Prelude.{◌≡◌, ◌+◌, ◌≤◌, length, set};
ghost use Rattle.text.specs.Text.{Put};

// Puts words where there is room for them. Not one with text's put_bytes over any type: there what does not fit is dropped, and each place is tested.
pub fn put_words(out: &mut [u32], at: usize, words: &[u32]) -> usize
    requires { at + length words.now ≤ length out.old }
    ensures { Put out.old at words.now out.new result }
{
    // Not copy_from_slice, which makes the archive need memmove; nor a zip over iter_mut, of which no proof knows what it stored.
    for (i, word) in words.iter().enumerate() {
        out[at + i] = *word;
    }
    at + words.len()
}

// Stores a word over another one; past the end nothing. By index: of a slice's get_mut no proof knows what it stored.
pub fn set_word(out: &mut [u32], at: usize, word: u32)
    ensures { out.new ≡ set out.old at word }
{
    if at < out.len() {
        out[at] = word;
    }
}
