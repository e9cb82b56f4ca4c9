// One record of the unit file, written.
#![tactic(auto)]

mod put;
mod size;

ghost use Rattle.std.specs.Prelude.{◌≡◌, length};
ghost use Rattle.recordwriter.specs.Written.{written_answer, written_buffer, refusal_of};

use put::put_record;
use record::Record;
use size::size_of;
use wire::refusal::Refusal;

// Why a record is not written.
#[derive(Drop)]
pub enum Fault {
    Broken,
    NoRoom(u32),
}

// A function and no `From`: a call then says by its name that it gives the number, the place and the value.
#[tactic(auto, unfolding(crate::specs::Written::refusal_of))]
pub fn refusal(f: Fault) -> Refusal
    ensures { result ≡ refusal_of f }
{
    match f {
        Fault::Broken => Refusal {
            number: 5,
            place: 0,
            value: 0,
        },
        Fault::NoRoom(needed) => Refusal {
            number: 6,
            place: 0,
            value: needed as i64,
        },
    }
}

// Writes one record at the buffer's front, in a unit of so many maps; a map's name lies in `names`, where its record says.
#[tactic(auto, using(std::proofs::lemmas::Bool::Decides::nat_tests, crate::proofs::Valid::valid_more, crate::proofs::Length::record_length, wire::proofs::Store::store_out), unfolding(crate::specs::Size::size_of, crate::specs::Written::written_answer, crate::specs::Written::written_buffer))]
pub fn write_record(
    value: Record,
    names: &[u8],
    maps: u16,
    buffer: &mut [u8],
) -> Result<usize, Fault>
    ensures value { result ≡ written_answer value names.now maps (length buffer.old) }
    ensures buffer_after { buffer.new ≡ written_buffer value names.now maps buffer.old }
{
    let Some(n) = size_of(value, names, maps) else {
        return Err(Fault::Broken);
    };
    let needed = 4 + (n as u32);
    if buffer.len() < needed as usize {
        return Err(Fault::NoRoom(needed));
    }
    put_record(buffer, value, names, n);
    Ok(needed as usize)
}
