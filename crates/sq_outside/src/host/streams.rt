//! Streams over readers and writers.
ghost use Rattle.std.specs.Prelude.{◌≡◌, ◌≤◌, length, drop, IfOk, OnErr};

use crate::buffer::copy_prefix;
use crate::{Failed, Sink, Source};
use std::io::{self, Read, Write};

/// A source over a reader.
#[derive(Drop)]
pub struct StreamSource<R: Read> {
    reader: R,
    faults: u64,
}

impl<R: Read> StreamSource<R> {
    /// A source that reads from `reader`.
    pub fn new(reader: R) -> Self
        ensures { result.faults ≡ 0 }
    {
        StreamSource { reader, faults: 0 }
    }
}

impl<R: Read> Source for StreamSource<R> {
    ghost use Rattle.std.specs.Prelude.{None};

    ghost source_state = { λ s. record { left = None; faults = s.faults } };

    fn read(&mut self, buf: &mut [u8]) -> Result<usize, Failed> {
        match read_some(&mut self.reader, buf) {
            Ok(n) => Ok(n),
            Err(_) => {
                self.faults = self.faults.saturating_add(1);
                Err(Failed)
            }
        }
    }
}

// No reader says what it leaves after the bytes that it gave, so they come by way of a buffer of its own.
fn read_some<R: Read>(reader: &mut R, buf: &mut [u8]) -> io::Result<usize>
    ensures within { IfOk result (λ n. n ≤ length buf.old) }
    ensures after { IfOk result (λ n. drop n buf.new ≡ drop n buf.old) }
    ensures kept { OnErr result (buf.new ≡ buf.old) }
{
    let mut own = [0; 8192];
    let room = own.len().min(buf.len());
    let n = reader.read(&mut own[..room])?;
    Ok(copy_prefix(&own[..n], buf))
}

/// A sink over a writer. It doesn't flush: a writer with a buffer is flushed by its owner.
#[derive(Drop)]
pub struct StreamSink<W: Write> {
    writer: W,
    faults: u64,
}

impl<W: Write> StreamSink<W> {
    /// A sink that writes to `writer`.
    pub fn new(writer: W) -> Self
        ensures { result.faults ≡ 0 }
    {
        StreamSink { writer, faults: 0 }
    }
}

impl<W: Write> Sink for StreamSink<W> {
    ghost use Rattle.std.specs.Prelude.{None};

    ghost sink_state = { λ s. record { written = None; faults = s.faults } };

    fn write(&mut self, piece: &[u8]) -> Result<usize, Failed> {
        match self.writer.write(piece) {
            Ok(n) => {
                if n == 0 && !piece.is_empty() {
                    self.faults = self.faults.saturating_add(1);
                }
                Ok(n)
            }
            Err(_) => {
                self.faults = self.faults.saturating_add(1);
                Err(Failed)
            }
        }
    }
}

#[cfg(test)]
mod tests {
    use super::*;

    // Fails, gives or takes as much as fits, and then is at its end: nothing more is given or taken.
    #[derive(Drop)]
    struct Wire {
        calls: u8,
    }

    impl Wire {
        fn turn(&mut self, room: usize) -> io::Result<usize>
            ensures { IfOk result (λ n. n ≤ room) }
        {
            self.calls = self.calls.saturating_add(1);
            match self.calls {
                1 => Err(io::Error::other("broken")),
                2 => Ok(room.min(3)),
                _ => Ok(0),
            }
        }
    }

    impl Read for Wire {
        fn read(&mut self, buf: &mut [u8]) -> io::Result<usize> {
            let n = self.turn(buf.len())?;
            buf.fill(b'x');
            Ok(n)
        }
    }

    impl Write for Wire {
        fn write(&mut self, buf: &[u8]) -> io::Result<usize> {
            self.turn(buf.len())
        }

        fn flush(&mut self) -> io::Result<()> {
            Ok(())
        }
    }

    #[test]
    fn a_source_counts_each_error_of_its_reader(rt: HostRuntime) {
        let mut source = StreamSource::new(Wire { calls: 0 });
        let mut buf = *b"12345";
        assert_eq!(rt; source.read(&mut buf), Err(Failed));
        assert_eq!(rt; source.faults, 1);
        assert_eq!(rt; &buf, b"12345");
        assert_eq!(rt; source.read(&mut buf), Ok(3));
        assert_eq!(rt; &buf, b"xxx45");
        assert_eq!(rt; source.read(&mut buf), Ok(0));
        assert_eq!(rt; source.faults, 1);
    }

    #[test]
    fn a_sink_counts_each_error_and_each_write_that_takes_nothing(rt: HostRuntime) {
        let mut sink = StreamSink::new(Wire { calls: 0 });
        assert_eq!(rt; sink.write(b"12345"), Err(Failed));
        assert_eq!(rt; sink.faults, 1);
        assert_eq!(rt; sink.write(b"12345"), Ok(3));
        assert_eq!(rt; sink.faults, 1);
        assert_eq!(rt; sink.write(b"12345"), Ok(0));
        assert_eq!(rt; sink.faults, 2);
        assert_eq!(rt; sink.write(b""), Ok(0));
        assert_eq!(rt; sink.faults, 2);
    }
}
