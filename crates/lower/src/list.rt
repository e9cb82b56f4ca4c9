// Words put one after the other, and pieces.
ghost use Rattle.std.specs.Prelude.{◌+◌, ◌≤◌, ◌≡◌, Ok};
ghost use Rattle.wire.specs.Le.{store};
ghost use Rattle.wire.specs.Number.{bytes_before};
ghost use Rattle.insn.specs.Layout.{bytes_of, insn_of};
ghost use Rattle.lower.specs.Op.{becomes};
ghost use Rattle.lower.specs.Step.{words, chain, map_ops, Holds, PutPiece, Puts};

use crate::Emitted;
use crate::piece::{Piece, word};
use wire::number::{SlotNumber, byte_offset};

// ---- putting

// The code and a byte of it, and no part of it that begins there: what is promised holds for each byte, also past its end.
// An instruction at a slot, counted from a byte of the code; no slot lies in the code where that byte lies past its end.
fn put_slot(code: &mut [u8], at: usize, slot: SlotNumber, word: u64)
    ensures { code.new ≡ store code.old (at + bytes_before slot.0) (bytes_of (insn_of word)) }
{
    if code.len() < at {
        return;
    }
    wire::put_u64(code, at + byte_offset(slot).0 as usize, word);
}

const MAP_SLOTS: u32 = 2;

// The load of a map's address, and the slot after it.
fn put_map(code: &mut [u8], at: usize, map: Option<u32>) -> SlotNumber
    ensures holds { Holds code.old at (map_ops map) code.new result.0 }
    ensures result_bound { result.0 ≤ 2 }
{
    match map {
        None => SlotNumber(0),
        Some(_) => {
            let wide = word(insn::BPF_LD_DW_IMM, insn::R1, 1, 0, 0);
            put_slot(code, at, SlotNumber(0), wide);
            put_slot(code, at, SlotNumber(1), 0);
            SlotNumber(MAP_SLOTS)
        }
    }
}

// A piece from a slot on, and the slot after it.
fn put(code: &mut [u8], at: usize, slot: SlotNumber, p: Piece) -> SlotNumber
    requires { slot.0 ≤ 64 }
    ensures { PutPiece code.old at slot.0 p code.new result.0 }
{
    match p {
        Piece::Nothing => slot,
        Piece::One(a) => {
            put_slot(code, at, slot, a);
            SlotNumber(slot.0 + 1)
        }
        Piece::Two(a, b) => {
            put_slot(code, at, slot, a);
            put_slot(code, at, SlotNumber(slot.0 + 1), b);
            SlotNumber(slot.0 + 2)
        }
    }
}

// ---- lists

pub(crate) fn words<const N: usize>(code: &mut [u8], at: usize, given: [u64; N]) -> Emitted
    requires { N ≤ 5 }
    ensures { Puts code.old at (words given.entry) code.new (Ok result) }
{
    for (k, w) in given.iter().enumerate() {
        put_slot(code, at, SlotNumber(k as u32), *w);
    }
    Emitted {
        map: None,
        slots: N as u32,
    }
}

// Pieces, after the load of a map's address where there is one.
pub(crate) fn pieces<const N: usize>(
    code: &mut [u8],
    at: usize,
    map: Option<u32>,
    given: [Piece; N],
) -> Emitted
    requires { N ≤ 6 }
    ensures { Puts code.old at (becomes (chain (map_ops map) given.entry)) code.new (Ok result) }
{
    let mut slot = put_map(code, at, map);
    for p in given.iter() {
        slot = put(code, at, slot, *p);
    }
    Emitted { map, slots: slot.0 }
}
