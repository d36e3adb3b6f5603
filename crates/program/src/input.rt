// The whole of the input.
ghost use Rattle.std.specs.Prelude.{◌<◌, length, IfOk, IfErr};
ghost use Rattle.std.specs.Io.KnownBytes.{IsAtEnd};
ghost use Rattle.program.specs.Input.{Taken};

use std::io;
use std::io::Read;

// What a read that failed answered, and how many bytes were read before.
#[derive(Drop)]
pub struct Stopped {
    pub size: usize,
    pub error: io::Error,
}

// Answers how many bytes it put at the start of `buf`. Input longer than `buf` is read until that is full.
pub fn read_whole<R: Read>(from: &mut R, buf: &mut [u8]) -> Result<usize, Stopped>
    ensures taken { IfOk result (Taken (R.remaining from.old) (R.remaining from.new) buf.new) }
    ensures to_end { IfOk result (λ n. n < length buf.new → IsAtEnd (R.remaining from.new)) }
    ensures failed { IfErr result (λ stopped. Taken (R.remaining from.old) (R.remaining from.new) buf.new stopped.size) }
{
    let mut done = 0;
    while done < buf.len() {
        match from.read(&mut buf[done..]) {
            Ok(0) => break,
            Ok(more) => done += more,
            Err(error) => return Err(Stopped { size: done, error }),
        }
    }
    Ok(done)
}
