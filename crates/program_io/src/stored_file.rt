//! Reading whole: an input, as standard input is, or a stored file.

ghost use Rattle.std.specs.Prelude.{◌≢◌, ◌<◌, IfErr, IfOk, length, take};
ghost use Rattle.std.specs.Io.{ReadsAtMost};
ghost use Rattle.std.specs.Io.KnownBytes.{Consumes, IsAtEnd};
ghost use Rattle.std.specs.IoError.{error_kind};

use std::io::{ErrorKind, Read};
use std::rt::Files;
use std::{fs, io};

/// Reads the file into the buffer, and returns how many bytes it has. A file that fills the buffer
/// may go on behind it, and is an error.
pub fn read(rt: &impl Files, name: &str, buffer: &mut [u8]) -> io::Result<usize>
    ensures bound { ReadsAtMost result buffer.new }
    ensures whole { IfOk result (λ n. n < length buffer.new) }
{
    let mut file = fs::open(rt, name)?;
    let n = read_full(&mut file, buffer)?;
    if n == buffer.len() {
        return Err(ErrorKind::FileTooLarge.into());
    }
    Ok(n)
}

/// Reads until the buffer is full or the input has come to its end, and returns how many bytes it
/// put at the start of the buffer. A read that is interrupted is made again, up to 2^64 reads in
/// all; any other error is returned.
pub fn read_full<R: Read>(input: &mut R, buffer: &mut [u8]) -> io::Result<usize>
    ensures bound { ReadsAtMost result buffer.new }
    ensures bytes { IfOk result (λ n.
        Consumes (R.remaining input.old) (R.remaining input.new) (take n buffer.new)) }
    ensures end { IfOk result (λ n. n < length buffer.new → IsAtEnd (R.remaining input.new)) }
    ensures error { IfErr result (λ e. error_kind e ≢ ErrorKind.Interrupted) }
{
    let mut done = 0;
    for _ in 0..u64::MAX {
        if done == buffer.len() {
            return Ok(done);
        }
        match input.read(&mut buffer[done..]) {
            Ok(0) => return Ok(done),
            Ok(n) => done += n,
            Err(error) => {
                if error.kind() != ErrorKind::Interrupted {
                    return Err(error);
                }
            }
        }
    }
    Err(ErrorKind::TimedOut.into())
}

#[cfg(test)]
mod tests {
    use super::*;

    // An input that gives its bytes two at a time; every second read is interrupted, and one fails
    #[derive(Drop)]
    struct FaultyInput<'a> {
        bytes: &'a [u8],
        reads: u32,
        fails: u32,
    }

    impl Read for FaultyInput<'_> {
        fn read(&mut self, buf: &mut [u8]) -> io::Result<usize> {
            let read = self.reads;
            self.reads = read.saturating_add(1);
            if read == self.fails {
                return Err(ErrorKind::ConnectionReset.into());
            }
            if read % 2 == 1 {
                return Err(ErrorKind::Interrupted.into());
            }
            let n = buf.len().min(2);
            self.bytes.read(&mut buf[..n])
        }
    }

    // Seven bytes come by nine reads, the last at the end; the first four by three.
    #[test]
    fn a_read_that_fails_ends_the_reading(rt: HostRuntime) {
        for (size, reads, whole) in [(8, 9, 7), (4, 3, 4)] {
            for fails in 0..=reads {
                let mut input = FaultyInput {
                    bytes: &[1, 2, 3, 4, 5, 6, 7],
                    reads: 0,
                    fails,
                };
                let mut bytes = [0; 8];
                match read_full(&mut input, &mut bytes[..size]) {
                    Ok(n) => {
                        assert_eq!(rt; (fails, n), (reads, whole));
                        assert_eq!(rt; &bytes[..n], &[1, 2, 3, 4, 5, 6, 7][..n]);
                    }
                    Err(error) => {
                        assert_eq!(rt; error.kind(), ErrorKind::ConnectionReset);
                        assert!(rt; fails < reads, "read {fails} of {reads}");
                    }
                }
            }
        }
    }
}
