// Lines of a weighbridge file (02: Slip 1): the header line and a line for each delivery, and how long they are.
#![tactic(auto)]

ghost use Rattle.std.specs.Prelude.{◌≡◌, ◌+◌, ◌≤◌, [], ◌∷◌, ◌++◌, length};
ghost use Rattle.model.specs.Bounds.{most_slots};
ghost use Rattle.model.specs.Deliveries.{delivery, rows};
ghost use Rattle.model.specs.Lent.{records_given};
ghost use Rattle.model.specs.Fields.{line_end};
ghost use Rattle.model.specs.Csv.{carriage_return};
ghost use Rattle.model.specs.Weighbridge.{plain_number, header_line, row_line, csv_text};
ghost use Rattle.fields.specs.Writing.{Wrote};
ghost use Rattle.csv_lines.specs.Writing.{CountIs, reached, digit_count, row_lines};

use model::Records;

// The bytes of the header line, and those of a line that are no digits.
const HEADER: usize = 21;

const MARKS: usize = 4;

// 1 for a number that is not below a bound, else 0.
fn reaches(n: u32, bound: u32) -> usize
    ensures { CountIs result (reached bound n) 1 }
{
    usize::from(bound <= n)
}

// How many of three bounds a number reaches.
fn reaches_three(n: u32, a: u32, b: u32, c: u32) -> usize
    ensures { CountIs result (reached a n + reached b n + reached c n) 3 }
{
    reaches(n, a) + reaches(n, b) + reaches(n, c)
}

// How many digits a number has: one, and one more for each power of ten that it reaches. No division and no branch.
fn plain_length(n: u32) -> usize
    ensures { CountIs result (length (plain_number n)) 10 }
{
    let small = reaches_three(n, 10, 100, 1000);
    let middle = reaches_three(n, 10000, 100000, 1000000);
    let large = reaches_three(n, 10000000, 100000000, 1000000000);
    1 + small + middle + large
}

// How many digits the numbers of a slice have together.
fn digits_total(s: &[u32]) -> usize
    requires { length s.now ≤ most_slots }
    ensures { CountIs result (digit_count s.now) 2621440 }
{
    let mut total = 0;
    for &n in s {
        total += plain_length(n);
    }
    total
}

// The length of the text of records. No line has a day.
pub fn text_length(r: Records) -> usize
    ensures { result ≡ length (csv_text (rows (records_given r.entry))) }
{
    HEADER
        + MARKS * r.len()
        + digits_total(r.growers)
        + digits_total(r.weights)
        + digits_total(r.yields)
}

// A number's digits at a cursor, from the last one to the left.
fn put_plain(text: &mut [u8], at: usize, n: u32) -> usize
    requires { at + length (plain_number n) ≤ length text.old }
    ensures { Wrote text.old at (plain_number n) text.new result }
{
    let digits = plain_length(n);
    let next = at + digits;
    let mut m = n;
    for i in (0..digits).rev() {
        let j = at + i;
        text[j] = b'0' + (m % 10) as u8;
        m /= 10;
    }
    next
}

// A number and the byte behind it.
fn put_field(text: &mut [u8], at: usize, n: u32, behind: u8) -> usize
    requires { at + length (plain_number n ++ behind ∷ []) ≤ length text.old }
    ensures { Wrote text.old at (plain_number n ++ behind ∷ []) text.new result }
{
    let e = put_plain(text, at, n);
    text[e] = behind;
    e + 1
}

// CR and LF.
fn put_line_end(text: &mut [u8], at: usize) -> usize
    requires { at + 2 ≤ length text.old }
    ensures { Wrote text.old at (carriage_return ∷ line_end ∷ []) text.new result }
{
    text[at] = b'\r';
    let l = at + 1;
    text[l] = b'\n';
    l + 1
}

// The line of one delivery, whatever its day.
fn put_row(text: &mut [u8], at: usize, g: u32, w: u32, y: u32) -> usize
    requires { at + length (row_line (delivery g w y 0)) ≤ length text.old }
    ensures { Wrote text.old at (row_line (delivery g w y 0)) text.new result }
{
    let a = put_field(text, at, g, b',');
    let b = put_field(text, a, w, b',');
    let c = put_plain(text, b, y);
    put_line_end(text, c)
}

// The lines of records.
pub fn put_rows(text: &mut [u8], at: usize, r: Records) -> usize
    requires { at + length (row_lines (rows (records_given r))) ≤ length text.old }
    ensures { Wrote text.old at (row_lines (rows (records_given r.entry))) text.new result }
{
    let mut e = at;
    for i in 0..r.len() {
        e = put_row(text, e, r.growers[i], r.weights[i], r.yields[i]);
    }
    e
}

// The header line at the start of a text.
pub fn put_header(text: &mut [u8]) -> usize
    requires { 21 ≤ length text.old }
    ensures { Wrote text.old 0 header_line text.new result }
{
    fields::put_bytes(text, 0, b"grower,weight,yield\r\n")
}
