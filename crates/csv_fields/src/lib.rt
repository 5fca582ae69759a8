// Fields of comma-separated text by RFC 4180 (02: Slip 1) at a byte of a text, and the numbers that they spell.
#![tactic(auto)]

ghost use Rattle.std.specs.Prelude.{◌≡◌, ◌+◌, ◌-◌, ◌<◌, ◌≤◌, true, false, length};
ghost use Rattle.model.specs.Bounds.{most_number};
ghost use Rattle.model.specs.Weighbridge.{number_in};
ghost use Rattle.csv_fields.specs.Reading.{BehindIs, StopsIs, PlainEnd, QuotedIs, FieldIs, RunIs, CellIs, SkippedIs, ShortIs, ShortCellIs, number_of};

// What stands behind a field, and where the text goes on.
#[derive(Clone, Copy)]
pub enum Behind {
    Comma(usize),
    End(usize),
}

// A quoted field behind its opening quote: where it is closed, and whether no quote in it is doubled.
#[derive(Clone, Copy)]
struct Quoted {
    to: usize,
    clean: bool,
}

// A field: where its bytes stand, whether no quote in it is doubled, and where the text goes on.
#[derive(Clone, Copy)]
pub struct Field {
    pub from: usize,
    pub to: usize,
    pub clean: bool,
    pub rest: usize,
}

// The number of digits from a byte on, and where the text goes on.
#[derive(Clone, Copy)]
pub struct Digits {
    pub number: u32,
    pub next: usize,
}

// The number of a field, if it is one, and what stands behind the field.
#[derive(Clone, Copy)]
pub struct Cell {
    pub number: Option<u32>,
    pub behind: Behind,
}

// The greatest number (01: 4,294,967,295).
const MOST: u64 = u32::MAX as u64;

// What stands behind a field, unless it is broken.
pub fn behind_at(text: &[u8], at: usize) -> Option<Behind>
    requires { at ≤ length text.now }
    ensures { BehindIs text.now at result }
{
    if at == text.len() {
        return Some(Behind::End(at));
    }
    match text[at] {
        b',' => Some(Behind::Comma(at + 1)),
        b'\n' => Some(Behind::End(at + 1)),
        b'\r' if at + 1 < text.len() && text[at + 1] == b'\n' => Some(Behind::End(at + 2)),
        _ => None,
    }
}

// Whether an unquoted field ends ahead of a byte. The two tests of order keep the others from becoming a table of jumps.
fn stops_at(text: &[u8], at: usize) -> bool
    requires { at < length text.now }
    ensures { StopsIs text.now at result }
{
    let b = text[at];
    if b',' < b {
        return false;
    }
    if b == b',' {
        return true;
    }
    if b == b'"' {
        return true;
    }
    if b'\r' < b {
        return false;
    }
    if b == b'\n' {
        return true;
    }
    if b != b'\r' {
        return false;
    }
    if at + 1 == text.len() {
        return false;
    }
    text[at + 1] == b'\n'
}

// Where an unquoted field ends.
fn plain_end(text: &[u8], at: usize) -> usize
    requires { at ≤ length text.now }
    ensures { PlainEnd text.now at result }
{
    for i in at..text.len() {
        if stops_at(text, i) {
            return i;
        }
    }
    text.len()
}

// Where a quoted field is closed, read from behind its opening quote; none if it is never closed.
fn quoted_end(text: &[u8], at: usize) -> Option<Quoted>
    requires { at ≤ length text.now }
    ensures { QuotedIs text.now at result }
{
    let mut i = at;
    let mut clean = true;
    // A `while`, since a doubled quote is two bytes.
    while i < text.len() {
        if text[i] != b'"' {
            i += 1;
        } else {
            if i + 1 == text.len() || text[i + 1] != b'"' {
                return Some(Quoted { to: i, clean });
            }
            clean = false;
            i += 2;
        }
    }
    None
}

// The field at a byte; none if its quote is never closed.
pub fn field_at(text: &[u8], at: usize) -> Option<Field>
    requires { at ≤ length text.now }
    ensures { FieldIs text.now at result }
{
    if at == text.len() || text[at] != b'"' {
        let to = plain_end(text, at);
        return Some(Field {
            from: at,
            to,
            clean: true,
            rest: to,
        });
    }
    let quoted = quoted_end(text, at + 1)?;
    Some(Field {
        from: at + 1,
        to: quoted.to,
        clean: quoted.clean,
        rest: quoted.to + 1,
    })
}

// Digits from a byte on; none if their number is of more than 32 bits. The low four bits of a digit are its value.
fn digits_at(text: &[u8], at: usize) -> Option<Digits>
    requires { at ≤ length text.now }
    ensures { RunIs text.now at result }
{
    let mut v: u64 = 0;
    for i in at..text.len() {
        let b = text[i];
        if b < b'0' || b'9' < b {
            return Some(Digits {
                number: v as u32,
                next: i,
            });
        }
        v = v * 10 + u64::from(b % 16);
        if MOST < v {
            return None;
        }
    }
    Some(Digits {
        number: v as u32,
        next: text.len(),
    })
}

// The number that bytes spell, if they are digits and it is of 32 bits.
fn spell(s: &[u8]) -> Option<u32>
    ensures { number_of result ≡ number_in most_number s.now }
{
    let digits = digits_at(s, 0)?;
    if digits.next != s.len() || digits.next == 0 {
        return None;
    }
    Some(digits.number)
}

// The number of the field at a byte, and what stands behind it; none if the field or what is behind it is broken.
fn any_cell(text: &[u8], at: usize) -> Option<Cell>
    requires { at ≤ length text.now }
    ensures { CellIs text.now at result }
{
    let field = field_at(text, at)?;
    let behind = behind_at(text, field.rest)?;
    let number = if field.clean {
        spell(&text[field.from..field.to])
    } else {
        None
    };
    Some(Cell { number, behind })
}

// The same; digits, which nearly every field is, are read once. `any_cell` is called in one place, so that it is inlined.
pub fn cell_at(text: &[u8], at: usize) -> Option<Cell>
    requires { at ≤ length text.now }
    ensures { CellIs text.now at result }
{
    if let Some(digits) = digits_at(text, at) {
        if at < digits.next {
            if let Some(behind) = behind_at(text, digits.next) {
                return Some(Cell {
                    number: Some(digits.number),
                    behind,
                });
            }
        }
    }
    any_cell(text, at)
}

// What stands behind the field at a byte; its number is not read.
pub fn skip_field(text: &[u8], at: usize) -> Option<Behind>
    requires { at ≤ length text.now }
    ensures { SkippedIs text.now at result }
{
    let field = field_at(text, at)?;
    behind_at(text, field.rest)
}

// The value of a digit, and more than 9 for any other byte: one test in place of two.
fn digit_of(b: u8) -> u32
    ensures { result ≤ 9 → b ≡ result + 48 }
{
    u32::from(b).wrapping_sub(48)
}

// At most so many digits from a byte on with a byte behind them. The count is a parameter and differs from call to call, since a loop of a
// fixed count is unrolled first and then too long to be inlined.
fn short_at(text: &[u8], at: usize, digits: usize) -> Option<Digits>
    requires { at ≤ length text.now × digits ≤ 10 }
    ensures { ShortIs text.now at result }
{
    if text.len() - at <= digits {
        return None;
    }
    let mut v: u64 = 0;
    for k in 0..digits {
        let d = digit_of(text[at + k]);
        if 9 < d {
            return Some(Digits {
                number: v as u32,
                next: at + k,
            });
        }
        v = v * 10 + u64::from(d);
    }
    if MOST < v {
        return None;
    }
    Some(Digits {
        number: v as u32,
        next: at + digits,
    })
}

// At most so many digits and a comma: the number of a field that is not the last.
pub fn short_before_comma(text: &[u8], at: usize, digits: usize) -> Option<Digits>
    requires { at ≤ length text.now × digits ≤ 10 }
    ensures { ShortCellIs text.now at true result }
{
    let short = short_at(text, at, digits)?;
    if short.next == at || text[short.next] != b',' {
        return None;
    }
    Some(Digits {
        number: short.number,
        next: short.next + 1,
    })
}

// At most so many digits and a line end: the number of the last field of a record.
pub fn short_before_end(text: &[u8], at: usize, digits: usize) -> Option<Digits>
    requires { at ≤ length text.now × digits ≤ 10 }
    ensures { ShortCellIs text.now at false result }
{
    let short = short_at(text, at, digits)?;
    if short.next == at {
        return None;
    }
    let Behind::End(next) = behind_at(text, short.next)? else {
        return None;
    };
    Some(Digits {
        number: short.number,
        next,
    })
}
