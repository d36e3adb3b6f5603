// Text on its way out.
ghost use Rattle.std.specs.Prelude.{◌≤◌, OnOk};
ghost use Rattle.std.specs.Io.KnownBytes.{Keeps};
ghost use Rattle.program.specs.declared.buffered.TheConstants.{ROOM};

use std::io;
use std::io::Write;

const ROOM: usize = 32768;

// Hands text on to a writer in large pieces, as the standard library's buffers do, which ask an allocator for their memory. What is not handed on
// yet stands first in `bytes`.
#[derive(Drop)]
pub struct Buffered<W> {
    to: W,
    bytes: [u8; ROOM],
    size: usize,
    ghost within: { size ≤ ROOM },
}

impl<W: Write> Buffered<W> {
    ghost use Rattle.program.specs.Buffered.{held};

    pub fn new(to: W) -> Self
        ensures { Keeps (W.contents to) (held W.contents result) }
    {
        Buffered {
            to,
            bytes: [0; ROOM],
            size: 0,
        }
    }

    // One write.
    fn hand_on(&mut self) -> io::Result<()>
        ensures { Keeps (held W.contents self.old) (held W.contents self.new) }
    {
        match self.to.write(&self.bytes[..self.size])? {
            0 => Err(io::Error::from(io::ErrorKind::WriteZero)),
            n => {
                self.bytes.copy_within(n..self.size, 0);
                self.size -= n;
                Ok(())
            }
        }
    }
}

impl<W: Write> Write for Buffered<W> {
    ghost use Rattle.program.specs.Buffered.{handed_on, held};

    ghost contents = { held W.contents };

    fn write(&mut self, buf: &[u8]) -> io::Result<usize> {
        if self.size == ROOM {
            self.hand_on()?;
        }
        let n = buf.len().min(ROOM - self.size);
        self.bytes[self.size..self.size + n].copy_from_slice(&buf[..n]);
        self.size += n;
        Ok(n)
    }

    // A write that a signal interrupts is tried again, as `write_all` does.
    fn flush(&mut self) -> io::Result<()>
        ensures bytes { Keeps (held W.contents self.old) (held W.contents self.new) }
        ensures all { OnOk result (Keeps (held W.contents self.old) (handed_on W.contents self.new)) }
    {
        for _ in 0..u64::MAX {
            if self.size == 0 {
                return self.to.flush();
            }
            if let Err(error) = self.hand_on()
                && error.kind() != io::ErrorKind::Interrupted
            {
                return Err(error);
            }
        }
        Err(io::Error::from(io::ErrorKind::Interrupted))
    }
}
