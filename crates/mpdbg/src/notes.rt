//! Readers and writers that keep why their last call failed, so that a person at a terminal can be told.

use std::io;
use std::io::{Error, ErrorKind, Read, Write};

/// A reader or a writer, and the error of its last call.
#[derive(Drop)]
pub(crate) struct Noted<D> {
    device: D,
    error: Option<Error>,
}

impl<D> Noted<D> {
    /// The reader or writer, before any call.
    pub(crate) fn new(device: D) -> Noted<D> {
        Noted {
            device,
            error: None,
        }
    }

    /// Why the last call failed; `None` where it didn't.
    pub(crate) fn error(&self) -> Option<Error> {
        self.error
    }
}

impl<D: Read> Read for Noted<D> {
    ghost remaining = { λ n. D.remaining n.device };

    fn read(&mut self, buf: &mut [u8]) -> io::Result<usize> {
        match self.device.read(buf) {
            Ok(count) => {
                self.error = None;
                Ok(count)
            }
            Err(error) => {
                self.error = Some(error);
                Err(error)
            }
        }
    }
}

impl<D: Write> Write for Noted<D> {
    ghost contents = { λ n. D.contents n.device };

    fn write(&mut self, buf: &[u8]) -> io::Result<usize> {
        match self.device.write(buf) {
            Ok(count) => {
                self.error = if count == 0 {
                    Some(Error::from(ErrorKind::WriteZero))
                } else {
                    None
                };
                Ok(count)
            }
            Err(error) => {
                self.error = Some(error);
                Err(error)
            }
        }
    }

    fn flush(&mut self) -> io::Result<()> {
        self.device.flush()
    }
}
