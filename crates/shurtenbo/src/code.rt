// Code: what the screen says of it.
ghost use Rattle.shurtenbo.specs.Code.{Screen};

use crate::answer;

#[unsafe(no_mangle)]
pub extern "C" fn shurtenbo_screen(
    code: &[u8],
    relocs: &[u32],
    table: &mut [u16],
    answer: &mut [u64; 3],
)
    ensures { Screen code.now relocs.now table.old table.new answer.new }
{
    match screen::screen(code, relocs, table) {
        Ok(()) => answer::done(answer, 0, 0),
        Err(f) => answer::refused(answer, screen::refusal(f)),
    }
}
