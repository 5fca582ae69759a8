// What the programs share: an input read whole, and which stream failed.
#![tactic(auto)]

ghost use Rattle.std.specs.Prelude.{◌≤◌, length, IfOk};
ghost use Rattle.input.specs.Reads.{Reads};

use std::fmt::{self, Display, Formatter};
use std::io::{self, Read};

// Which stream failed.
#[derive(Clone, Copy)]
pub enum Failure {
    Input,
    Output,
}

impl Display for Failure {
    fn fmt<W: fmt::Write>(&self, f: &mut Formatter<W>) -> fmt::Result {
        f.write_str(match self {
            Failure::Input => "standard input cannot be read",
            Failure::Output => "standard output cannot be written",
        })
    }
}

// What the reader gives from here to its end, or as much as fits: how many bytes. A read that a signal interrupts before it gives a byte is
// one that failed.
pub fn read_all<R: Read>(reader: &mut R, input: &mut [u8]) -> io::Result<usize>
    ensures within { IfOk result (λ n. n ≤ length input.new) }
    ensures bytes { IfOk result (Reads (R.remaining reader.old) (R.remaining reader.new) input.new) }
{
    let mut n = 0;
    // A `while`, since a read says how far it came.
    while n < input.len() {
        let k = reader.read(&mut input[n..])?;
        if k == 0 {
            return Ok(n);
        }
        n += k;
    }
    Ok(n)
}
