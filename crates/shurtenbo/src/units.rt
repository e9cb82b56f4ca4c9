// Units: what is read of them, and their code.
ghost use Rattle.std.specs.Prelude.{◌≡◌, length};
ghost use Rattle.unitfile.specs.Unit.{parse};
ghost use Rattle.unitfile.specs.MapName.{place_of};
ghost use Rattle.tracepoint.specs.Compile.{compile_answer, compile_code, compile_relocs};
ghost use Rattle.shurtenbo.specs.Units.{unit_numbers, place_numbers, compiled_numbers};

use crate::answer;

// The answer where a unit has no map of the number asked for.
const NO_SUCH_MAP: u64 = 1000;

// Tells how many maps and how many blocks the unit has.
#[unsafe(no_mangle)]
pub extern "C" fn shurtenbo_read_unit(unit: &[u8], answer: &mut [u64; 3])
    ensures { answer.new ≡ unit_numbers (parse unit.now) }
{
    match unitfile::read_unit(unit) {
        Ok(found) => answer::done(answer, found.maps as u64, found.blocks as u64),
        Err(f) => answer::refused(answer, record::refusal(f)),
    }
}

// Tells where the map's name lies in the unit: its first byte, and how many bytes it has.
#[unsafe(no_mangle)]
pub extern "C" fn shurtenbo_map_name(unit: &[u8], map: u32, answer: &mut [u64; 3])
    ensures { answer.new ≡ place_numbers (place_of unit.now (parse unit.now) map) }
{
    match unitfile::map_place(unit, map) {
        Ok(Some((start, len))) => answer::done(answer, start as u64, len as u64),
        Ok(None) => answer::only(answer, NO_SUCH_MAP),
        Err(f) => answer::refused(answer, record::refusal(f)),
    }
}

// Fills the front of the code and of the relocations, and tells how many slots and how many relocations there are.
#[unsafe(no_mangle)]
pub extern "C" fn shurtenbo_compile(
    unit: &[u8],
    code: &mut [u8],
    relocs: &mut [u32],
    answer: &mut [u64; 3],
)
    ensures answer_after { answer.new ≡ compiled_numbers (compile_answer unit.now (length code.old) (length relocs.old)) }
    ensures code_after { code.new ≡ compile_code unit.now code.old (length relocs.old) }
    ensures relocs_after { relocs.new ≡ compile_relocs unit.now (length code.old) relocs.old }
{
    match tracepoint::compile_tracepoint(unit, code, relocs) {
        Ok((slots, pairs)) => answer::done(answer, slots as u64, pairs as u64),
        Err(f) => answer::refused(answer, tracepoint::refusal(f)),
    }
}
