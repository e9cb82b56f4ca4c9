// Little-endian numbers in lent bytes. A number that does not lie whole in the bytes reads as 0 and is not written.
#![tactic(auto, using(crate::proofs::Le::library), unfolding(crate::specs::Le::unsigned_at, crate::specs::Le::signed_at, crate::specs::Le::signed_bytes))]

pub mod number;
pub mod range;
pub mod refusal;

ghost use Rattle.std.specs.Prelude.{◌≡◌, ◌+◌, ◌≤◌, ◌<◌, leb, length};
ghost use Rattle.std.specs.Int.{w8, w16, w32, w64};
ghost use Rattle.std.proofs.Common.{to_z, of_z};
ghost use Rattle.wire.specs.Pick.{pick};
ghost use Rattle.wire.specs.Le.{byte_at, le, unsigned_at, signed_at, unsigned_bytes, signed_bytes, store};

// Whether n bytes from i on lie in len bytes.
pub fn lies(i: usize, n: usize, len: usize) -> bool
    ensures { result ≡ leb (i + n) len }
{
    n <= len && i <= len - n
}

// ---- numbers read: a name a type, as the library's `from_le_bytes` has. A trait over them needs an impl for each, and says no more.

// N bytes with the number of the N bytes from i on: those bytes, or zeros where they do not lie whole in b.
fn bytes_at<const N: usize>(b: &[u8], i: usize) -> [u8; N]
    ensures { le N result 0 ≡ pick (leb (i + N) (length b.now)) (le N b.now i) 0 }
{
    let mut bytes = [0; N];
    if lies(i, N, b.len()) {
        bytes.copy_from_slice(&b[i..][..N]);
    }
    bytes
}

pub fn get_u8(b: &[u8], i: usize) -> u8
    ensures { result ≡ byte_at b.now i }
{
    b.get(i).copied().unwrap_or(0)
}

pub fn get_u16(b: &[u8], i: usize) -> u16
    ensures { result ≡ unsigned_at w16 b.now i }
{
    u16::from_le_bytes(bytes_at(b, i))
}

pub fn get_u32(b: &[u8], i: usize) -> u32
    ensures { result ≡ unsigned_at w32 b.now i }
{
    u32::from_le_bytes(bytes_at(b, i))
}

pub fn get_u64(b: &[u8], i: usize) -> u64
    ensures { result ≡ unsigned_at w64 b.now i }
{
    u64::from_le_bytes(bytes_at(b, i))
}

pub fn get_i16(b: &[u8], i: usize) -> i16
    ensures { result ≡ signed_at w16 b.now i }
{
    i16::from_le_bytes(bytes_at(b, i))
}

pub fn get_i32(b: &[u8], i: usize) -> i32
    ensures { result ≡ signed_at w32 b.now i }
{
    i32::from_le_bytes(bytes_at(b, i))
}

pub fn get_i64(b: &[u8], i: usize) -> i64
    ensures { result ≡ signed_at w64 b.now i }
{
    i64::from_le_bytes(bytes_at(b, i))
}

// ---- numbers written

pub fn put_bytes(b: &mut [u8], i: usize, bytes: &[u8])
    ensures { b.new ≡ store b.old i bytes.now }
{
    if lies(i, bytes.len(), b.len()) {
        b[i..i + bytes.len()].copy_from_slice(bytes);
    }
}

pub fn put_u8(b: &mut [u8], i: usize, x: u8)
    ensures { b.new ≡ store b.old i (unsigned_bytes w8 x) }
{
    put_bytes(b, i, &x.to_le_bytes())
}

pub fn put_u16(b: &mut [u8], i: usize, x: u16)
    ensures { b.new ≡ store b.old i (unsigned_bytes w16 x) }
{
    put_bytes(b, i, &x.to_le_bytes())
}

pub fn put_u32(b: &mut [u8], i: usize, x: u32)
    ensures { b.new ≡ store b.old i (unsigned_bytes w32 x) }
{
    put_bytes(b, i, &x.to_le_bytes())
}

pub fn put_u64(b: &mut [u8], i: usize, x: u64)
    ensures { b.new ≡ store b.old i (unsigned_bytes w64 x) }
{
    put_bytes(b, i, &x.to_le_bytes())
}

pub fn put_i32(b: &mut [u8], i: usize, z: i32)
    ensures { b.new ≡ store b.old i (signed_bytes w32 z) }
{
    put_bytes(b, i, &z.to_le_bytes())
}

pub fn put_i64(b: &mut [u8], i: usize, z: i64)
    ensures { b.new ≡ store b.old i (signed_bytes w64 z) }
{
    put_bytes(b, i, &z.to_le_bytes())
}

// ---- two's complement

// A signed number from its bits.
pub fn sign32(x: u32) -> i32
    ensures { result ≡ to_z w32 x }
{
    x.cast_signed()
}

pub fn sign64(x: u64) -> i64
    ensures { result ≡ to_z w64 x }
{
    x.cast_signed()
}

// A signed number's bits, as an unsigned number.
pub fn bits16(z: i16) -> u16
    ensures { result ≡ of_z w16 z }
{
    z.cast_unsigned()
}

pub fn bits32(z: i32) -> u32
    ensures { result ≡ of_z w32 z }
{
    z.cast_unsigned()
}

pub fn bits64(z: i64) -> u64
    ensures { result ≡ of_z w64 z }
{
    z.cast_unsigned()
}
