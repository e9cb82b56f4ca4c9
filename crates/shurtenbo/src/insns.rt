// One instruction: 8 bytes to its fields, and back.
ghost use Rattle.std.specs.Prelude.{◌≡◌};
ghost use Rattle.insn.specs.Layout.{decoded, encoded_answer, encoded_bytes};
ghost use Rattle.shurtenbo.specs.Insns.{insn_of, insn_fields, decoded_numbers, decoded_fields, encoded_numbers};

use crate::answer;
use insn::{Fault, Insn};

// The answer where the bytes are not eight.
const NOT_EIGHT: u64 = 1001;

fn put_fields(fields: &mut [i64; 5], i: Insn)
    ensures { fields.new ≡ insn_fields i }
{
    *fields = [
        i.code as i64,
        i.dst as i64,
        i.src as i64,
        i.off as i64,
        i.imm as i64,
    ];
}

// Leaves the code, the destination, the source, the offset and the immediate in the fields.
#[unsafe(no_mangle)]
pub extern "C" fn shurtenbo_decode(bytes: &[u8], fields: &mut [i64; 5], answer: &mut [u64; 3])
    ensures answer_after { answer.new ≡ decoded_numbers (decoded bytes.now) }
    ensures fields_after { fields.new ≡ decoded_fields (decoded bytes.now) fields.old }
{
    match insn::decode(bytes) {
        Ok(i) => {
            put_fields(fields, i);
            answer::done(answer, 0, 0)
        }
        Err(Fault::NotEight) => answer::only(answer, NOT_EIGHT),
    }
}

#[unsafe(no_mangle)]
pub extern "C" fn shurtenbo_encode(
    code: u8,
    dst: u8,
    src: u8,
    off: i16,
    imm: i32,
    bytes: &mut [u8],
    answer: &mut [u64; 3],
)
    ensures answer_after { answer.new ≡ encoded_numbers (encoded_answer bytes.old) }
    ensures bytes_after { bytes.new ≡ encoded_bytes (insn_of code dst src off imm) bytes.old }
{
    let i = Insn {
        code,
        dst,
        src,
        off,
        imm,
    };
    match insn::encode(i, bytes) {
        Ok(()) => answer::done(answer, 0, 0),
        Err(Fault::NotEight) => answer::only(answer, NOT_EIGHT),
    }
}
