// Text put into a lent slice; a slice cleared.
// Each writer takes the slice and a place and returns the place after its text. What does not fit is not stored, and the place moves on all the same,
// so that the same function measures (into an empty part) and writes. The two stay two parameters, here and in the crates above:
// tried as a struct that holds the lent slice, whose lender then knows nothing of what the slice holds.
#![tactic(auto)]

ghost use Rattle.std.specs.Prelude.{◌≡◌, [], ◌∷◌, length, take, replicate};
ghost use Rattle.text.specs.Text.{Put};

pub fn put_byte(out: &mut [u8], at: usize, b: u8) -> usize
    ensures { Put out.old at (b ∷ []) out.new result }
{
    // By index: of a slice's get_mut no proof knows what it stored.
    if at < out.len() {
        out[at] = b;
        return at + 1;
    }
    at.saturating_add(1)
}

pub fn put_bytes(out: &mut [u8], at: usize, src: &[u8]) -> usize
    ensures { Put out.old at src.now out.new result }
{
    let n = src.len();
    if at <= out.len() && n <= out.len() - at {
        // Not copy_from_slice, which makes the archive need memmove; nor a zip over iter_mut, of which no proof knows what it stored.
        for (i, b) in src.iter().enumerate() {
            out[at + i] = *b;
        }
        return at + n;
    }
    put_bytes_fitting(out, at, src)
}

// The bytes that fit: each is tested. By this loop alone a word of real x64 books takes 128.1 instructions in place of 72.5.
fn put_bytes_fitting(out: &mut [u8], at: usize, src: &[u8]) -> usize
    ensures { Put out.old at src.now out.new result }
{
    let mut p = at;
    for b in src {
        p = put_byte(out, p, *b);
    }
    p
}

// The first `size` bytes of `src`, or all where it has fewer: two parameters, so that no caller has to show that it has so many.
pub fn put_front(out: &mut [u8], at: usize, src: &[u8], size: usize) -> usize
    ensures { Put out.old at (take size src.now) out.new result }
{
    put_bytes(out, at, &src[..size.min(src.len())])
}

// Every byte 0.
pub fn clear(out: &mut [u8])
    ensures { out.new ≡ replicate (length out.old) 0 }
{
    out.fill(0);
}
