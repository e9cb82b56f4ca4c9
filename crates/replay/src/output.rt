// Answers as text on standard output.
use std::{fmt, io};
use wire::refusal::Refusal;

#[derive(Clone, Copy)]
pub(crate) struct Hex<'a>(pub(crate) &'a [u8]);

impl fmt::Display for Hex<'_> {
    fn fmt<W: fmt::Write>(&self, f: &mut fmt::Formatter<W>) -> fmt::Result {
        for b in self.0 {
            write!(f, "{b:02x}")?;
        }
        Ok(())
    }
}

pub(crate) fn refused(out: &impl Print, r: Refusal) -> io::Result<()> {
    println!(out; "refused {} at {} value {}", r.number, r.place, r.value)
}
