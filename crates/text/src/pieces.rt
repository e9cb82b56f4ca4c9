// The pieces of a line: words, digits, names. A piece that does not lie whole in the buffer is not written.
ghost use Rattle.std.specs.Prelude.{◌≡◌, ◌+◌, ◌≤◌, ◌<◌, leb, length};
ghost use Rattle.std.specs.Int.{w64};
ghost use Rattle.wire.specs.Pick.{pick};
ghost use Rattle.wire.specs.Le.{unsigned_bytes, store};
ghost use Rattle.text.specs.Digits.{digit, decimal, sign, hex, shown, shown_name};
ghost use Rattle.text.specs.Lines.{after};

use wire::lies;

// The place after n bytes from a place on, and the place itself where they do not lie in len bytes.
fn end(at: usize, n: usize, len: usize) -> usize
    ensures { result ≡ pick (leb (at + n) len) (at + n) at }
{
    if lies(at, n, len) { at + n } else { at }
}

#[tactic(auto, unfolding(crate::specs::Lines::after))]
pub(crate) fn put_word(out: &mut [u8], at: usize, word: &[u8]) -> usize
    ensures value { result ≡ after out.old at word.now }
    ensures out_after { out.new ≡ store out.old at word.now }
{
    let end = end(at, word.len(), out.len());
    wire::put_bytes(out, at, word);
    end
}

// ---- decimal

// How many decimal digits a number has.
#[tactic(auto, using(crate::proofs::Decimals::counts))]
pub(crate) fn digits(n: u64) -> usize
    ensures { (result ≡ length (decimal n)) × (result ≤ 20) }
{
    match n.checked_ilog10() {
        Some(power) => power as usize + 1,
        None => 1,
    }
}

pub(crate) fn put_decimal(out: &mut [u8], at: usize, n: u64) -> usize
    ensures value { result ≡ after out.old at (decimal n) }
    ensures out_after { out.new ≡ store out.old at (decimal n) }
{
    let count = digits(n);
    let mut text = [0; 20];
    let mut left = n;
    for i in (0..count).rev() {
        text[i] = b'0' + (left % 10) as u8;
        left /= 10;
    }
    put_word(out, at, &text[..count])
}

// The sign before a number's digits: a minus, or nothing.
#[tactic(auto, unfolding(crate::specs::Digits::sign, crate::specs::Ascii::ascii))]
pub(crate) fn sign(z: i64) -> &'static [u8]
    ensures { (result.now ≡ sign z) × (length result.now ≤ 1) }
{
    if z < 0 { b"-" } else { b"" }
}

// ---- hexadecimal

#[tactic(auto, unfolding(crate::specs::Digits::digit))]
fn digit(d: u8) -> u8
    requires { d < 16 }
    ensures { result ≡ digit d }
{
    if d < 10 { b'0' + d } else { b'a' + (d - 10) }
}

pub(crate) fn put_hex(out: &mut [u8], at: usize, bytes: &[u8; 8]) -> usize
    ensures value { result ≡ after out.old at (hex bytes.now) }
    ensures out_after { out.new ≡ store out.old at (hex bytes.now) }
{
    let mut text = [0; 16];
    for (k, byte) in bytes.iter().enumerate() {
        text[2 * k] = digit(*byte / 16);
        text[2 * k + 1] = digit(*byte % 16);
    }
    put_word(out, at, &text)
}

// ---- names

#[tactic(auto, unfolding(crate::specs::Digits::shown))]
fn shown(x: u8) -> u8
    ensures { result ≡ shown x }
{
    if x.is_ascii_graphic() { x } else { b'?' }
}

pub(crate) fn put_name(out: &mut [u8], at: usize, name: &[u8]) -> usize
    ensures value { result ≡ after out.old at (shown_name name.now) }
    ensures out_after { out.new ≡ store out.old at (shown_name name.now) }
{
    if lies(at, name.len(), out.len()) {
        for (k, x) in name.iter().enumerate() {
            out[at + k] = shown(*x);
        }
        return at + name.len();
    }
    at
}
