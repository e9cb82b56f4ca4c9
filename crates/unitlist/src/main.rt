// Lists what a unit becomes: the counts, each slot with its 8 bytes, each relocation with its map's name; or the refusal.
#![tactic(auto)]

ghost use Rattle.std.specs.Prelude.{◌≤◌, length, IfOk};

use std::io::{self, Read};
use wire::number::{ByteOffset, SlotNumber};
use wire::refusal::Refusal;

// The longest unit that is listed.
const MOST: usize = 32768;

const TOO_LONG: Refusal = Refusal {
    number: 1,
    place: 0,
    value: 0,
};

// The line that `put` puts into the bytes it is lent. The longest is a relocation with a name of 64 bytes.
fn line<F: FnOnce(&mut [u8]) -> usize>(out: &impl Print, put: F) -> io::Result<()>
    requires { F.IsAlwaysCallable put }
{
    let mut buffer = [0u8; 128];
    let len = put(&mut buffer);
    match buffer.get(..len) {
        Some(text) => out.write_all(text),
        None => Ok(()),
    }
}

fn refused(out: &impl Print, r: Refusal) -> io::Result<()> {
    line(out, |b| text::put_refused(b, 0, r))
}

fn slots(out: &impl Print, code: &[u8], count: u32) -> io::Result<()> {
    for i in 0..count {
        line(out, |b| text::put_slot(b, 0, SlotNumber(i), code))?;
    }
    Ok(())
}

fn relocs(out: &impl Print, unit: &[u8], pairs: &[u32], count: u32) -> io::Result<()> {
    for pair in pairs.chunks_exact(2).take(count as usize) {
        let offset = ByteOffset(u64::from(pair[0]));
        let name = unitfile::map_name(unit, pair[1]);
        line(out, |b| text::put_reloc(b, 0, offset, name))?;
    }
    Ok(())
}

fn list(out: &impl Print, unit: &[u8]) -> io::Result<()> {
    let mut code = [0u8; 65536];
    let mut pairs = [0u32; 4096];
    match tracepoint::compile_tracepoint(unit, &mut code, &mut pairs) {
        Ok((n, m)) => {
            line(out, |b| text::put_counts(b, 0, SlotNumber(n), m))?;
            slots(out, &code, n)?;
            relocs(out, unit, &pairs, m)
        }
        Err(f) => refused(out, tracepoint::refusal(f)),
    }
}

// Reads until the buffer is full or the input ends, and answers how many bytes it put at the front. The whole rest of the buffer is lent to
// each read, since an input may hand out a message at a time and cut what has no room; and the library's `read_to_end` needs the heap.
fn read_full(input: &mut impl Read, buffer: &mut [u8]) -> io::Result<usize>
    ensures { IfOk result (λ n. n ≤ length buffer.new) }
{
    let mut done = 0;
    // no `for`: a step is as long as what was read
    while done < buffer.len() {
        let n = input.read(&mut buffer[done..])?;
        if n == 0 {
            break;
        }
        done += n;
    }
    Ok(done)
}

fn main(rt: HostRuntime) -> io::Result<()> {
    // one byte more than the longest, which tells a unit that is longer
    let mut input = [0u8; MOST + 1];
    let len = read_full(&mut rt.reader(), &mut input)?;
    if len <= MOST {
        list(&rt, &input[..len])
    } else {
        refused(&rt, TOO_LONG)
    }
}
