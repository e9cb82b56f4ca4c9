// One record: read to numbers, and written from them.
ghost use Rattle.std.specs.Prelude.{◌≡◌, length};
ghost use Rattle.record.specs.Record.{read_record};
ghost use Rattle.recordfields.specs.Meant.{record_from};
ghost use Rattle.shurtenbo.specs.Records.{due_of, read_numbers, read_fields, written_numbers, write_answer, write_buffer};

use crate::answer;
use record::{Due, Record};
use recordfields::meant::record_from;
use recordfields::numbers::fields_of;
use recordwriter::Fault;

fn due_of(due: u8) -> Due
    ensures { result ≡ due_of due }
{
    match due {
        0 => Due::Head,
        1 => Due::Map,
        2 => Due::Block,
        _ => Due::Inside,
    }
}

// Leaves the record that is due at a byte of the unit in the fields, and tells the byte after it.
#[unsafe(no_mangle)]
pub extern "C" fn shurtenbo_read_record(
    unit: &[u8],
    at: usize,
    due: u8,
    maps: u16,
    fields: &mut [u64; 24],
    answer: &mut [u64; 3],
)
    ensures answer_after { answer.new ≡ read_numbers (read_record unit.now at (due_of due) maps) }
    ensures fields_after { fields.new ≡ read_fields (read_record unit.now at (due_of due) maps) fields.old }
{
    match record::read_record(unit, at, due_of(due), maps) {
        Ok((value, next)) => {
            *fields = fields_of(value);
            answer::done(answer, next as u64, 0)
        }
        Err(f) => answer::refused(answer, record::refusal(f)),
    }
}

fn tell_written(answer: &mut [u64; 3], w: Result<usize, Fault>)
    ensures { answer.new ≡ written_numbers w }
{
    match w {
        Ok(n) => answer::done(answer, n as u64, 0),
        Err(f) => answer::refused(answer, recordwriter::refusal(f)),
    }
}

// Writes the record that the fields mean at the buffer's front, and tells how many bytes it has; a map's name lies in `names`, where its fields say.
#[unsafe(no_mangle)]
pub extern "C" fn shurtenbo_write_record(
    fields: &[u64; 24],
    names: &[u8],
    maps: u16,
    buffer: &mut [u8],
    answer: &mut [u64; 3],
)
    ensures answer_after { answer.new ≡ written_numbers (write_answer (record_from maps fields.now) names.now maps (length buffer.old)) }
    ensures buffer_after { buffer.new ≡ write_buffer (record_from maps fields.now) names.now maps buffer.old }
{
    match record_from(fields, maps) {
        Some(value) => tell_written(
            answer,
            recordwriter::write_record(value, names, maps, buffer),
        ),
        None => tell_written(answer, Err(Fault::Broken)),
    }
}
