// The unwind codes of an .xdata record, as Microsoft's page on ARM64 exception handling has them: bytes in, the words of an ARM64 body out.
//
// A code is one to five bytes, an instruction of the prolog, the last one first. Its first byte says which code it is and how many bytes it has;
// the bits that are left are numbers, the high byte first. The list ends behind a code that ends it (end, end_c, and those that are reserved or for
// a custom stack), or where the bytes end.
//
// code reads one code, list the codes one after the other, with refusals 12 and 4; here the body is put, with refusal 9.

#![tactic(auto)]

mod code;
mod list;

ghost use Rattle.std.specs.Prelude.{length};
ghost use Rattle.fill.specs.Fill.{Fills};
ghost use Rattle.unwind_codes.specs.UnwindCodes.{decoded};

use fill::put_words;
use list::Codes;
use refusal::Refusal;

// The words of a body before its operations, and of an operation; arm64 keeps its own two to itself.
const HEAD: usize = 3;

const OP_WORDS: usize = 4;

// The body of a function at an address, of a size in bytes, whose unwind codes these are.
pub fn decode_arm64(
    bytes: &[u8],
    address: u32,
    size: u32,
    body: &mut [u32],
) -> Result<usize, Refusal>
    ensures { Fills (decoded bytes.now address size (length body.old)) body.old body.new result }
{
    let codes = Codes::read(bytes)?;
    if body.len() < HEAD + OP_WORDS * codes.count {
        return Err(Refusal::Room);
    }
    let at = put_words(body, 0, &[address, size, codes.count as u32]);
    Ok(codes.put(body, at))
}
