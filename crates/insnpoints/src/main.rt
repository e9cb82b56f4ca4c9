// Reads eBPF instructions from standard input, and writes for each the line that LLVM's disassembler has: the bytes, encoded
// again from the decoded fields, and the words for these fields.
#![tactic(auto)]

mod operand;
mod text;

ghost use Rattle.std.specs.Prelude.{◌≤◌, length, IfOk};

use insn::Insn;
use insn::form::{Form, form_of};
use std::io::{self, Read};
use text::{OneSlot, Slot, WideLoad};

// What is read of the input.
const MOST: usize = 4096;

fn print_one_slot(out: &impl Print, i: Insn) -> io::Result<()> {
    println!(out; "{}\t{}", Slot(i), OneSlot(i))
}

fn print_wide_load(out: &impl Print, first: Insn, second: Insn) -> io::Result<()> {
    println!(out;
        "{} {}\t{}",
        Slot(first),
        Slot(second),
        WideLoad(first, second)
    )
}

// A wide load has two slots: the first waits for the second.
fn slot(out: &impl Print, waiting: Option<Insn>, b: &[u8]) -> io::Result<Option<Insn>> {
    let Ok(i) = insn::decode(b) else {
        println!(out; "not eight bytes")?;
        return Ok(waiting);
    };
    match (waiting, form_of(i.code)) {
        (Some(first), _) => print_wide_load(out, first, i)?,
        (None, Form::WideLoad) => return Ok(Some(i)),
        (None, _) => print_one_slot(out, i)?,
    }
    Ok(None)
}

fn each_slot(out: &impl Print, code: &[u8]) -> io::Result<()> {
    let mut waiting = None;
    for b in code.chunks(8) {
        waiting = slot(out, waiting, b)?;
    }
    if let Some(first) = waiting {
        print_one_slot(out, first)?;
    }
    Ok(())
}

// Reads until the buffer is full or the input ends, and answers how many bytes it put at the front. The whole rest of the buffer is lent to
// each read, since an input may hand out a message at a time and cut what has no room; and the library's `read_to_end` needs the heap.
fn read_full(input: &mut impl Read, buffer: &mut [u8]) -> io::Result<usize>
    ensures { IfOk result (λ n. n ≤ length buffer.new) }
{
    let mut done = 0;
    // no `for`: a step is as long as what was read
    while done < buffer.len() {
        let n = input.read(&mut buffer[done..])?;
        if n == 0 {
            break;
        }
        done += n;
    }
    Ok(done)
}

fn main(rt: HostRuntime) -> io::Result<()> {
    let mut code = [0u8; MOST];
    let len = read_full(&mut rt.reader(), &mut code)?;
    each_slot(&rt, &code[..len])
}
