// Reading from a reader. A read that fails is no end of the input; one that a signal interrupts is asked again.
#![tactic(auto)]

ghost use Rattle.std.specs.Prelude.{◌≡◌, ◌<◌, length, take};
ghost use Rattle.base_input.specs.More.{Filling, Fits};
ghost use Rattle.base_input.specs.Known.{TakesMore, TakesWhole};

use std::io;
use std::io::{Error, ErrorKind, Read};

// Reads behind the first n bytes of buf, and answers how many bytes are filled then; `None` is the input's end. The count of reads is there so that
// the loop is seen to end.
pub fn read_more<R: Read>(input: &mut R, buf: &mut [u8], n: usize) -> io::Result<Option<usize>>
    requires { n < length buf.old }
    ensures filling { Filling n (length buf.old) result }
    ensures buf_unchanged { take n buf.new ≡ take n buf.old }
    ensures taken { TakesMore (R.remaining input.old) (R.remaining input.new) n buf.new result }
{
    for _ in 0..u64::MAX {
        match input.read(&mut buf[n..]) {
            Ok(0) => return Ok(None),
            Ok(more) => return Ok(Some(n + more)),
            Err(e) => {
                if e.kind() != ErrorKind::Interrupted {
                    return Err(e);
                }
            }
        }
    }
    Err(Error::from(ErrorKind::Interrupted))
}

// Reads until the input ends or buf is full, and answers how many bytes were read.
pub fn read_whole<R: Read>(input: &mut R, buf: &mut [u8]) -> io::Result<usize>
    ensures fits { Fits (length buf.old) result }
    ensures taken { TakesWhole (R.remaining input.old) (R.remaining input.new) buf.new result }
{
    let mut n = 0;
    while n < buf.len() {
        match read_more(input, &mut buf[..], n)? {
            Some(m) => n = m,
            None => break,
        }
    }
    Ok(n)
}
