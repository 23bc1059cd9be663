// Standard input and output, by the kit's `io`: it rests on C's read and write alone, the runtime's own on lseek and errno too.
use std::io::{Error, ErrorKind, Read, Result, Write};

// Standard input, up to its end or to a read that fails.
#[derive(Clone, Copy, Debug, Default)]
pub struct Input {
    has_ended: bool,
}

impl Read for Input {
    fn read(&mut self, buffer: &mut [u8]) -> Result<usize> {
        if self.has_ended {
            return Ok(0);
        }
        let count = io::read_full(0, buffer);
        self.has_ended = count < buffer.len();
        Ok(count)
    }
}

// Standard output. A write that fails says no more than that.
#[derive(Clone, Copy, Debug)]
pub struct Output;

impl Write for Output {
    fn write(&mut self, bytes: &[u8]) -> Result<usize> {
        if io::write_all(1, bytes) {
            return Ok(bytes.len());
        }
        Err(Error::from(ErrorKind::Other))
    }

    fn flush(&mut self) -> Result<()> {
        Ok(())
    }
}
