// Text in a lent buffer: each function adds to the first `at` bytes, and answers how many there are then.
ghost use Rattle.std.specs.Prelude.{◌+◌, ◌*◌, ◌<◌, ◌≤◌, length};
ghost use Rattle.text.specs.Text.{ascii, spaced, newline};
ghost use Rattle.text.specs.Put.{Put, PutNumber, PutField};

pub fn word(text: &[u8], out: &mut [u8], at: usize) -> usize
    requires { at + length text.now ≤ length out.old }
    ensures { Put (length text.now) text.now out.old at out.new result }
{
    let end = at + text.len();
    out[at..end].copy_from_slice(text);
    end
}

pub fn end_line(out: &mut [u8], at: usize) -> usize
    requires { at < length out.old }
    ensures { Put 1 newline out.old at out.new result }
{
    out[at] = b'\n';
    at + 1
}

pub fn number(n: u64, out: &mut [u8], at: usize) -> usize
    requires { at + 20 ≤ length out.old }
    ensures { PutNumber n out.old at out.new result }
{
    let mut digits = [0; 20];
    let k = io::decimal(n, &mut digits);
    word(&digits[..k], out, at)
}

pub fn field(name: &[u8], n: u64, out: &mut [u8], at: usize) -> usize
    requires { at + length name.now + 20 ≤ length out.old }
    ensures { PutField name.now n out.old at out.new result }
{
    let after = word(name, out, at);
    number(n, out, after)
}

// One number of a list.
fn item(n: u64, out: &mut [u8], at: usize) -> usize
    requires { at + 21 ≤ length out.old }
    ensures { PutField (ascii " ") n out.old at out.new result }
{
    field(b" ", n, out, at)
}

pub fn spaced_u8(xs: &[u8], out: &mut [u8], at: usize) -> usize
    requires { at + 4 * length xs.now + 20 ≤ length out.old }
    ensures { Put (4 * length xs.now) (spaced xs.now) out.old at out.new result }
{
    let mut end = at;
    for x in xs {
        end = item(*x as u64, out, end);
    }
    end
}

pub fn spaced_u32(xs: &[u32], out: &mut [u8], at: usize) -> usize
    requires { at + 11 * length xs.now + 20 ≤ length out.old }
    ensures { Put (11 * length xs.now) (spaced xs.now) out.old at out.new result }
{
    let mut end = at;
    for x in xs {
        end = item(*x as u64, out, end);
    }
    end
}
