// Lines of numbers in a text (01: book and program): checked, taken column by column, and written.
#![tactic(auto)]

mod output;

ghost use Rattle.std.specs.Prelude.{◌≡◌, ◌+◌, ◌*◌, ◌≤◌, ◌<◌, length, drop, T};
ghost use Rattle.model.specs.Bounds.{most_slots};
ghost use Rattle.model.specs.Lists.{is_some};
ghost use Rattle.model.specs.Fields.{line, after_line_end};
ghost use Rattle.fields.specs.Writing.{placed};
ghost use Rattle.lines.specs.Lines.{text_checked, line_found, column_at, column_ok, line_length, line_ok, lines_ok};

use fields::WIDTH;
use model::Refusal;
pub use output::Output;

// The bytes of a line of one number, of two and of three.
pub const ONE: usize = WIDTH + 1;

pub const TWO: usize = 2 * WIDTH + 1;

pub const THREE: usize = 3 * WIDTH + 1;

// Whether LF stands at a byte.
pub fn ends(text: &[u8], at: usize) -> bool
    ensures { result ≡ is_some (after_line_end (drop at text.now)) }
{
    text.get(at) == Some(&b'\n')
}

// The N numbers of a line at a byte (01: 14).
pub fn line_at<const N: usize>(text: &[u8], at: usize) -> Result<[u32; N], Refusal>
    ensures { result ≡ line_found N at text.now }
{
    let mut numbers = [0u32; N];
    let mut e = at;
    for x in numbers.iter_mut() {
        let Some((number, next)) = fields::number_at(text, e) else {
            return Err(Refusal::Text);
        };
        *x = number;
        e = next;
    }
    if !ends(text, e) {
        return Err(Refusal::Text);
    }
    Ok(numbers)
}

// Whether m such lines stand there.
pub fn check_lines<const N: usize>(text: &[u8], at: usize, m: usize) -> Result<(), Refusal>
    requires { (at ≤ 1000000) × (N ≤ 5) × (m ≤ most_slots) }
    ensures { result ≡ text_checked (lines_ok N m at text.now) }
{
    let mut e = at;
    for i in 0..m {
        line_at::<N>(text, e)?;
        e += WIDTH * N + 1;
    }
    Ok(())
}

// One number of each of as many lines of three as there are slots, from a byte on. The lines have been checked.
pub fn store(text: &[u8], at: usize, s: &mut [u32])
    requires { (at ≤ 1000000) × (length s.old ≤ most_slots) × T (column_ok 34 at (length s.old) text.now) }
    ensures { s.new ≡ column_at 34 at (length s.old) text.now }
{
    let mut e = at;
    for x in s.iter_mut() {
        *x = fields::spelled_at(text, e);
        e += THREE;
    }
}

// A line of numbers at a byte.
pub fn put_line(text: &mut [u8], at: usize, numbers: &[u32])
    requires { at + line_length (length numbers.now) ≤ length text.old }
    ensures { text.new ≡ placed at (line numbers.now) text.old }
{
    let mut e = at;
    for &n in numbers {
        fields::put_number(text, e, n);
        e += WIDTH;
    }
    text[e] = b'\n';
}
