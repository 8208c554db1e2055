// The calls for C. All are here, because an archive holds the exports of its own crate alone.
#![tactic(auto)]

ghost use Rattle.std.specs.Prelude.{◌≡◌, length, set};
ghost use Rattle.refusal.specs.Refusal.{answer_number};
ghost use Rattle.fill.specs.Fill.Laws.{count as filled_by};
ghost use Rattle.translate.specs.Outcome.{outcome};
ghost use Rattle.unwind_info.specs.UnwindInfo.{decoded};
ghost use Rattle.unwind_codes.specs.UnwindCodes.{decoded as decoded_codes};
ghost use Rattle.exports.specs.Exports.{Exported, FillExported};

use refusal::{Refusal, answer_number};

// A book into STACK lines: the refusal's number is returned, 0 where there is none; entries and length are stored where `counts` has room for two.
#[unsafe(no_mangle)]
pub extern "C" fn stacklines_translate(
    book: &[u32],
    limit: u32,
    work: &mut [u8],
    text: &mut [u8],
    counts: &mut [u64],
) -> u32
    ensures { Exported (outcome book.now limit work.old text.old) counts.old work.new text.new counts.new result }
{
    let r = translate::translate(book, limit, work, text);
    if let Some(places) = counts.first_chunk_mut() {
        *places = [r.entries as u64, r.length as u64];
    }
    answer_number(r.answer)
}

// What a call filled, stored where `count` has a place; the refusal's number is returned, 0 where there is none.
fn counted(answer: Result<usize, Refusal>, count: &mut [u64]) -> u32
    ensures number { result ≡ answer_number answer }
    ensures stored { count.new ≡ set count.old 0 (filled_by answer) }
{
    if let Some(place) = count.first_mut() {
        *place = answer.unwrap_or(0) as u64;
    }
    answer_number(answer)
}

// The unwind bytes of an x64 function into the words of its body: the refusal's number is returned, 0 where there is none, and the words filled are
// counted.
#[unsafe(no_mangle)]
pub extern "C" fn stacklines_decode_x64(
    bytes: &[u8],
    begin: u32,
    end: u32,
    info_address: u32,
    body: &mut [u32],
    count: &mut [u64],
) -> u32
    ensures { FillExported (decoded bytes.now begin end info_address (length body.old)) body.old count.old body.new count.new result }
{
    let answer = unwind_info::decode_x64(bytes, begin, end, info_address, body);
    counted(answer, count)
}

// The unwind codes of an ARM64 function into the words of its body: the refusal's number is returned, 0 where there is none, and the words filled
// are counted.
#[unsafe(no_mangle)]
pub extern "C" fn stacklines_decode_arm64(
    bytes: &[u8],
    address: u32,
    size: u32,
    body: &mut [u32],
    count: &mut [u64],
) -> u32
    ensures { FillExported (decoded_codes bytes.now address size (length body.old)) body.old count.old body.new count.new result }
{
    let answer = unwind_codes::decode_arm64(bytes, address, size, body);
    counted(answer, count)
}
