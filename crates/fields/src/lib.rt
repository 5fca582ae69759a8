// Numbers in a text (01: book and program): fields of 11 columns read and written.
#![tactic(auto)]

ghost use Rattle.std.specs.Prelude.{◌≡◌, false, ◌&&◌, ◌+◌, ◌-◌, ◌≤◌, ◌<◌, length, get_or, T, ltb, eqb};
ghost use Rattle.model.specs.Fields.{justified, number_field, signed_field};
ghost use Rattle.model.specs.Sheet.{wide_field};
ghost use Rattle.fields.specs.Reading.{read_of, read_at, field_ok, value_at, Blanks};
ghost use Rattle.fields.specs.Writing.{placed, Wrote};

// The columns of a number (01: 11 columns), and those ahead of its last digit.
pub const WIDTH: usize = 11;

const LEADING: usize = 10;
// The columns of a signed number (01: the bill, 20 columns).
pub const SIGNED_WIDTH: usize = 20;
// The columns of a number of a settlement sheet (02: 20 columns).
pub const WIDE: usize = 20;
// The greatest number (01: 4,294,967,295).
const MOST: u64 = u32::MAX as u64;

// How many of the leading columns of a field are blank ahead of the first that is not.
fn blanks(text: &[u8], at: usize) -> usize
    requires { at + 11 ≤ length text.now }
    ensures { Blanks text.now at result }
{
    for i in 0..LEADING {
        if text[at + i] != b' ' {
            return i;
        }
    }
    LEADING
}

// Whether the first column that is not blank, if it is not the last, is 0.
fn zero_leads(text: &[u8], at: usize, first: usize) -> bool
    requires { at + 11 ≤ length text.now }
    ensures { result ≡ ltb first 10 && eqb (get_or text.now (at + first) 0) 48 }
{
    first < LEADING && text[at + first] == b'0'
}

// The field whose columns ahead of `first` are blank: digits from there on, the first of them 0 only in the last column.
fn digits(text: &[u8], at: usize, first: usize) -> Option<(u32, usize)>
    requires { (at + 11 ≤ length text.now) × Blanks text.now at first × (ltb first 10 && eqb (get_or text.now (at + first) 0) 48 ≡ false) }
    ensures { read_of result ≡ read_at text.now at }
{
    let mut v = 0;
    for &b in &text[at + first..at + WIDTH] {
        if b < b'0' || b'9' < b {
            return None;
        }
        v = v * 10 + u64::from(b - b'0');
    }
    if MOST < v {
        return None;
    }
    Some((v as u32, at + WIDTH))
}

// The number at a cursor, taken whole, and where the text goes on.
pub fn number_at(text: &[u8], at: usize) -> Option<(u32, usize)>
    ensures { read_of result ≡ read_at text.now at }
{
    if text.len() < WIDTH || text.len() - WIDTH < at {
        return None;
    }
    let first = blanks(text, at);
    if zero_leads(text, at, first) {
        return None;
    }
    digits(text, at, first)
}

// The number of a field that has been read before: what its columns spell, without a test. The low four bits of a digit are its
// value, those of a blank 0.
pub fn spelled_at(text: &[u8], at: usize) -> u32
    requires { T (field_ok at text.now) }
    ensures { result ≡ value_at at text.now }
{
    let mut v = 0;
    for &b in &text[at..at + WIDTH] {
        v = v * 10 + u64::from(b % 16);
    }
    v as u32
}

// Bytes at a cursor: where the text goes on. A loop becomes memcpy and `copy_from_slice` memmove, and the archive for C needs memcpy and memset alone.
pub fn put_bytes(text: &mut [u8], at: usize, bytes: &[u8]) -> usize
    requires { at + length bytes.now ≤ length text.old }
    ensures { Wrote text.old at bytes.now text.new result }
{
    for (i, &byte) in bytes.iter().enumerate() {
        text[at + i] = byte;
    }
    at + bytes.len()
}

// A number right-justified in columns from a cursor, the sign just before its first digit.
fn put(text: &mut [u8], at: usize, width: usize, sign: u8, n: u64)
    requires { (1 ≤ width) × (at + width ≤ length text.old) }
    ensures { text.new ≡ placed at (justified sign width n) text.old }
{
    let last = at + (width - 1);
    text[last] = b'0' + (n % 10) as u8;
    let mut m = n / 10;
    let mut s = sign;
    for i in (0..width - 1).rev() {
        let j = at + i;
        if m == 0 {
            text[j] = s;
            s = b' ';
        } else {
            text[j] = b'0' + (m % 10) as u8;
            m /= 10;
        }
    }
}

// A number in 11 columns from a cursor.
pub fn put_number(text: &mut [u8], at: usize, n: u32)
    requires { at + 11 ≤ length text.old }
    ensures { text.new ≡ placed at (number_field n) text.old }
{
    put(text, at, WIDTH, b' ', u64::from(n));
}

// A number in 20 columns from a cursor.
pub fn put_wide(text: &mut [u8], at: usize, n: u64)
    requires { at + 20 ≤ length text.old }
    ensures { text.new ≡ placed at (wide_field n) text.old }
{
    put(text, at, WIDE, b' ', n);
}

// A signed number in 20 columns from a cursor, a minus just before its first digit.
pub fn put_signed(text: &mut [u8], at: usize, z: i64)
    requires { at + 20 ≤ length text.old }
    ensures { text.new ≡ placed at (signed_field z) text.old }
{
    let sign = if z < 0 { b'-' } else { b' ' };
    put(text, at, SIGNED_WIDTH, sign, z.unsigned_abs());
}
