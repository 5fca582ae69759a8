// A program's output: a text at the front of a fixed buffer.

ghost use Rattle.std.specs.Prelude.{◌≡◌, ◌≤◌, [], ◌∷◌, length, take};
ghost use Rattle.model.specs.Fields.{line};
ghost use Rattle.lines.specs.Outputs.{output_of};

use crate::{ONE, put_line};

// Its bytes at the front, zeros past them, and how many there are.
#[derive(Clone, Copy)]
pub struct Output<const N: usize> {
    pub bytes: [u8; N],
    pub count: usize,
}

impl<const N: usize> Output<N> {
    // A line of one number alone.
    pub fn one_number(n: u32) -> Self
        requires { 12 ≤ N }
        ensures { result ≡ output_of N (line (n ∷ [])) }
    {
        let mut bytes = [0u8; N];
        put_line(&mut bytes, 0, &[n]);
        Output { bytes, count: ONE }
    }

    // The text.
    pub fn as_slice(&self) -> &[u8]
        requires { self.now.count ≤ length self.now.bytes }
        ensures { result.now ≡ take self.now.count self.now.bytes }
    {
        &self.bytes[..self.count]
    }
}
