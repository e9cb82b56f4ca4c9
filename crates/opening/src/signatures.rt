// Signatures of names. Names that differ may have the same one, so that a signature only spares comparing.
ghost use Rattle.std.specs.Prelude.{◌≡◌};
ghost use Rattle.opening.specs.Inner.{signature_of};

// A number made of the length and the bytes.
pub(crate) fn signature(name: &[u8]) -> u64
    ensures { result ≡ signature_of name.now }
{
    name.iter().fold(name.len() as u64, |mix, b| {
        mix % 72057594037927936 * 251 + *b as u64
    })
}
