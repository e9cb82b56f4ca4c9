// What `libshurtenbo.a` exports: each entry point of `shurtenbo` once more, under the same name and with the same clauses, for C.
#![tactic(auto)]

ghost use Rattle.std.specs.Prelude.{◌≡◌, length};
ghost use Rattle.insn.specs.Layout.{decoded, encoded_answer, encoded_bytes};
ghost use Rattle.record.specs.Record.{read_record};
ghost use Rattle.recordfields.specs.Meant.{record_from};
ghost use Rattle.unitfile.specs.Unit.{parse};
ghost use Rattle.unitfile.specs.MapName.{place_of};
ghost use Rattle.tracepoint.specs.Compile.{compile_answer, compile_code, compile_relocs};
ghost use Rattle.shurtenbo.specs.Code.{Screen};
ghost use Rattle.shurtenbo.specs.Insns.{insn_of, decoded_numbers, decoded_fields, encoded_numbers};
ghost use Rattle.shurtenbo.specs.Records.{due_of, read_numbers, read_fields, written_numbers, write_answer, write_buffer};
ghost use Rattle.shurtenbo.specs.Units.{unit_numbers, place_numbers, compiled_numbers};

use shurtenbo::{code, insns, records, units};

#[unsafe(no_mangle)]
pub extern "C" fn shurtenbo_read_unit(unit: &[u8], answer: &mut [u64; 3])
    ensures { answer.new ≡ unit_numbers (parse unit.now) }
{
    units::shurtenbo_read_unit(unit, answer)
}

#[unsafe(no_mangle)]
pub extern "C" fn shurtenbo_map_name(unit: &[u8], map: u32, answer: &mut [u64; 3])
    ensures { answer.new ≡ place_numbers (place_of unit.now (parse unit.now) map) }
{
    units::shurtenbo_map_name(unit, map, answer)
}

#[unsafe(no_mangle)]
pub extern "C" fn shurtenbo_compile(
    unit: &[u8],
    code: &mut [u8],
    relocs: &mut [u32],
    answer: &mut [u64; 3],
)
    ensures answer_after { answer.new ≡ compiled_numbers (compile_answer unit.now (length code.old) (length relocs.old)) }
    ensures code_after { code.new ≡ compile_code unit.now code.old (length relocs.old) }
    ensures relocs_after { relocs.new ≡ compile_relocs unit.now (length code.old) relocs.old }
{
    units::shurtenbo_compile(unit, code, relocs, answer)
}

#[unsafe(no_mangle)]
pub extern "C" fn shurtenbo_screen(
    code: &[u8],
    relocs: &[u32],
    table: &mut [u16],
    answer: &mut [u64; 3],
)
    ensures { Screen code.now relocs.now table.old table.new answer.new }
{
    code::shurtenbo_screen(code, relocs, table, answer)
}

#[unsafe(no_mangle)]
pub extern "C" fn shurtenbo_decode(bytes: &[u8], fields: &mut [i64; 5], answer: &mut [u64; 3])
    ensures answer_after { answer.new ≡ decoded_numbers (decoded bytes.now) }
    ensures fields_after { fields.new ≡ decoded_fields (decoded bytes.now) fields.old }
{
    insns::shurtenbo_decode(bytes, fields, answer)
}

#[unsafe(no_mangle)]
pub extern "C" fn shurtenbo_encode(
    code: u8,
    dst: u8,
    src: u8,
    off: i16,
    imm: i32,
    bytes: &mut [u8],
    answer: &mut [u64; 3],
)
    ensures answer_after { answer.new ≡ encoded_numbers (encoded_answer bytes.old) }
    ensures bytes_after { bytes.new ≡ encoded_bytes (insn_of code dst src off imm) bytes.old }
{
    insns::shurtenbo_encode(code, dst, src, off, imm, bytes, answer)
}

#[unsafe(no_mangle)]
pub extern "C" fn shurtenbo_read_record(
    unit: &[u8],
    at: usize,
    due: u8,
    maps: u16,
    fields: &mut [u64; 24],
    answer: &mut [u64; 3],
)
    ensures answer_after { answer.new ≡ read_numbers (read_record unit.now at (due_of due) maps) }
    ensures fields_after { fields.new ≡ read_fields (read_record unit.now at (due_of due) maps) fields.old }
{
    records::shurtenbo_read_record(unit, at, due, maps, fields, answer)
}

#[unsafe(no_mangle)]
pub extern "C" fn shurtenbo_write_record(
    fields: &[u64; 24],
    names: &[u8],
    maps: u16,
    buffer: &mut [u8],
    answer: &mut [u64; 3],
)
    ensures answer_after { answer.new ≡ written_numbers (write_answer (record_from maps fields.now) names.now maps (length buffer.old)) }
    ensures buffer_after { buffer.new ≡ write_buffer (record_from maps fields.now) names.now maps buffer.old }
{
    records::shurtenbo_write_record(fields, names, maps, buffer, answer)
}
