//! A reader and writer for tests: two octets a call; the second call is interrupted, and the fourth fails.
use std::io::{ErrorKind, Read, Write};

/// A reader and writer that passes on two octets at a time. Its second call is interrupted, and its
/// fourth fails.
#[derive(Drop)]
pub struct Rough<T> {
    pub calm: T,
    calls: usize,
}

impl<T> Rough<T> {
    pub fn new(calm: T) -> Self {
        Rough { calm, calls: 0 }
    }

    fn next_call(&mut self) -> std::io::Result<()> {
        self.calls = self.calls.saturating_add(1);
        match self.calls {
            2 => Err(ErrorKind::Interrupted.into()),
            4 => Err(ErrorKind::Other.into()),
            _ => Ok(()),
        }
    }
}

impl<T: Read> Read for Rough<T> {
    fn read(&mut self, buf: &mut [u8]) -> std::io::Result<usize> {
        self.next_call()?;
        let most = buf.len().min(2);
        self.calm.read(&mut buf[..most])
    }
}

impl<T: Write> Write for Rough<T> {
    fn write(&mut self, buf: &[u8]) -> std::io::Result<usize> {
        self.next_call()?;
        self.calm.write(&buf[..buf.len().min(2)])
    }

    fn flush(&mut self) -> std::io::Result<()> {
        self.calm.flush()
    }
}
