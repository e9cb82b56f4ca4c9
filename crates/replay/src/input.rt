// A stored list: one case after the other, in bytes and little-endian numbers.
use std::fs;
use std::io::{self, Read};
use std::rt::Files;

// What stands after so many cases is not read. A loop has to end, and no proof knows how much a file holds.
const MOST_CASES: u32 = 100000;

// The bytes from `start` to `end` were read and are not taken yet. A `BufReader` has its buffer from the heap, which no program needs.
#[derive(Drop)]
pub(crate) struct List<F> {
    file: F,
    buffer: [u8; 4096],
    start: usize,
    end: usize,
}

// Opens the list of that name in the folder that the program runs in.
pub(crate) fn open<R: Files>(rt: &R, name: &str) -> io::Result<List<R::File>> {
    Ok(List {
        file: fs::open(rt, name)?,
        buffer: [0; 4096],
        start: 0,
        end: 0,
    })
}

impl<F: Read> List<F> {
    // Calls `case` where each case begins.
    pub(crate) fn each_case<C: FnMut(&mut Self) -> io::Result<()>>(
        &mut self,
        mut case: C,
    ) -> io::Result<()>
        requires { C.IsAlwaysCallable case }
    {
        for _ in 0..MOST_CASES {
            if self.next()?.is_none() {
                break;
            }
            case(self)?;
        }
        Ok(())
    }

    // The next byte, which is not taken; none at the list's end.
    fn next(&mut self) -> io::Result<Option<u8>> {
        if self.end <= self.start {
            self.end = self.file.read(&mut self.buffer)?;
            self.start = 0;
        }
        let read = self.buffer.get(self.start..self.end);
        Ok(read.and_then(|bytes| bytes.first().copied()))
    }

    pub(crate) fn byte(&mut self) -> io::Result<Option<u8>> {
        let next = self.next()?;
        self.start = self.start.saturating_add(1);
        Ok(next)
    }

    // Where the list ends early, the rest of the buffer stays as it is.
    pub(crate) fn fill(&mut self, buffer: &mut [u8]) -> io::Result<()> {
        for to in buffer.iter_mut() {
            let Some(b) = self.byte()? else {
                break;
            };
            *to = b;
        }
        Ok(())
    }

    // The bytes that a number lacks at the list's end are 0.
    pub(crate) fn number(&mut self) -> io::Result<u32> {
        let mut bytes = [0u8; 4];
        self.fill(&mut bytes)?;
        Ok(u32::from_le_bytes(bytes))
    }
}

// The pattern again and again, cut at the end; of an empty one, zeros.
pub(crate) fn repeat(to: &mut [u8], pattern: &[u8]) {
    to.fill(0);
    for (to, from) in to.iter_mut().zip(pattern.iter().cycle()) {
        *to = *from;
    }
}
