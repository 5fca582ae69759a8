// The lines of a listing (02: Slip 13): every layout of a few blocks that the flags and the limits let stand, by the choice of the first end and then the
// rest. A partition's part of the cost, and the fields of its end, are made once for all layouts that begin alike.
#![tactic(auto)]

ghost use Rattle.std.specs.Prelude.{◌≡◌, ◌&&◌, ◌+◌, ◌-◌, ◌*◌, ◌^◌, ◌≤◌, ◌<◌, [], ◌∷◌, ◌++◌, length, take, leb, ltb};
ghost use Rattle.model.specs.Bounds.{most_listed_blocks};
ghost use Rattle.model.specs.Fields.{number_field, signed_field, line_end};
ghost use Rattle.std.proofs.Math.IntN.{sub_ℕ};
ghost use Rattle.fields.specs.Writing.{Wrote, placed};
ghost use Rattle.layout_lines.specs.Rests.{ok_by, rests, LinesSize, lines_after, Choosing, Carrying, Chose, PutLines};

use fields::{SIGNED_WIDTH, WIDTH};
use layout_search::{BASE, Sums};
use model::MOST_LISTED_BLOCKS;

// Where the ends of a line begin, behind K and the cost.
const ENDS: usize = WIDTH + SIGNED_WIDTH;

// The bytes of a line beside its ends.
const LINE: usize = ENDS + 1;

// The fields of as many ends as there can be.
const ROW: usize = WIDTH * MOST_LISTED_BLOCKS;

// What the layouts are held to: how many blocks a partition may have, how many partitions there may be, and how many blocks there are.
#[derive(Clone, Copy)]
pub struct Rules {
    pub longest: usize,
    pub most: usize,
    pub blocks: usize,
}

// Where an end may stand, and what the layouts are held to.
#[derive(Clone, Copy)]
pub struct Choices<'a> {
    pub fits: &'a [bool],
    pub rules: Rules,
    pub ghost few: { rules.blocks ≤ most_listed_blocks },
    pub ghost marked: { rules.blocks ≤ length fits.now },
}

// How many layouts there are, and the bytes of their lines.
#[derive(Clone, Copy, Default)]
pub struct Size {
    pub layouts: u32,
    pub bytes: usize,
}

impl Size {
    // One layout of k ends.
    fn of_one(k: usize) -> Size
        requires { k ≤ 12 }
        ensures { (result.layouts ≡ 1) × (result.bytes ≡ 32 + 11 * k) }
    {
        Size {
            layouts: 1,
            bytes: LINE + WIDTH * k,
        }
    }
}

// A line at a byte: K, the cost that the number has, the fields of K ends in front of the row, and LF. Where the text goes on.
fn put_line(text: &mut [u8], at: usize, k: usize, number: u64, row: &[u8]) -> usize
    requires { (k ≤ 12) × Carrying k number row.now × (at + (32 + 11 * k) ≤ length text.old) }
    ensures { Wrote text.old at
        (number_field k ++ (signed_field (sub_ℕ number (2 ^ 60)) ++ (take (11 * k) row.now ++ line_end ∷ []))) text.new result }
{
    fields::put_number(text, at, k as u32);
    fields::put_signed(text, at + WIDTH, layout_search::unbiased(number));
    let e = fields::put_bytes(text, at + ENDS, &row[..WIDTH * k]);
    text[e] = b'\n';
    e + 1
}

// Block i is the end of the partition that begins at block a, with k ends before it: its field goes behind theirs, and the number is that with its part.
fn choose(sums: Sums, a: usize, i: usize, k: usize, number: u64, row: &mut [u8]) -> u64
    requires { (a ≤ i) × (i < sums.blocks) × (i < 12) × (k < 12) × Carrying k number row.old }
    ensures { Chose sums.entry.places.now a i k number row.old result row.new }
{
    fields::put_number(row, WIDTH * k, i as u32);
    number + sums.end_price(a, i) - BASE
}

impl<'a> Choices<'a> {
    // Whether k chosen ends can go on: there may be one more, and the blocks a ..= i are no longer than a partition may be.
    fn goes_on(&self, k: usize, a: usize, i: usize) -> bool
        requires { (a ≤ i) × (i < 12) }
        ensures { result ≡ ltb k self.now.rules.most && leb (i + 1 - a) self.now.rules.longest }
    {
        k < self.rules.most && i + 1 - a <= self.rules.longest
    }

    // How many layouts k chosen ends can go on to, and the bytes of their lines: the next partition begins at block a, its end is i or later.
    pub fn size_rest(self, k: usize, a: usize, i: usize) -> Size
        requires { Choosing self.rules.blocks k a i }
        ensures { LinesSize result.layouts result.bytes k
            (rests (ok_by self.entry.fits.now self.entry.rules.longest) self.entry.rules.most self.entry.rules.blocks k a i) }
    {
        self.size_from(k, a, i)
    }

    // The recursion of `size_rest`. It borrows the choices, as `put_rest` does: a copy of them in each frame would take most of the stack.
    fn size_from(&self, k: usize, a: usize, i: usize) -> Size
        requires { Choosing self.now.rules.blocks k a i }
        ensures { LinesSize result.layouts result.bytes k
            (rests (ok_by self.now.fits.now self.now.rules.longest) self.now.rules.most self.now.rules.blocks k a i) }
    {
        if !self.goes_on(k, a, i) {
            return Size::default();
        }
        if !self.fits[i] {
            if i + 1 == self.rules.blocks {
                return Size::default();
            }
            return self.size_from(k, a, i + 1);
        }
        if i + 1 == self.rules.blocks {
            return Size::of_one(k + 1);
        }
        let here = self.size_from(k + 1, i + 1, i + 1);
        let later = self.size_from(k, a, i + 1);
        Size {
            layouts: here.layouts + later.layouts,
            bytes: here.bytes + later.bytes,
        }
    }

    // The lines of the layouts that k chosen ends can go on to, at a byte of the text: the next partition begins at block a, its end is i or later. The
    // fields of the chosen ends are in front of the row, `number` is BASE and their part of the cost. Where the text goes on.
    fn put_rest(
        &self,
        sums: &Sums,
        k: usize,
        a: usize,
        i: usize,
        number: u64,
        row: &mut [u8],
        text: &mut [u8],
        at: usize,
    ) -> usize
        requires blocks { self.now.rules.blocks ≤ sums.now.blocks }
        requires choosing { Choosing self.now.rules.blocks k a i × Carrying k number row.old }
        requires room { at + length (lines_after sums.now.places.now k a number (take (11 * k) row.old)
            (rests (ok_by self.now.fits.now self.now.rules.longest) self.now.rules.most self.now.rules.blocks k a i)) ≤ length text.old }
        ensures { PutLines sums.now.places.now k a number
            (rests (ok_by self.now.fits.now self.now.rules.longest) self.now.rules.most self.now.rules.blocks k a i)
            row.old text.old at row.new text.new result }
    {
        if !self.goes_on(k, a, i) {
            return at;
        }
        if !self.fits[i] {
            if i + 1 == self.rules.blocks {
                return at;
            }
            return self.put_rest(sums, k, a, i + 1, number, row, text, at);
        }
        let next = choose(*sums, a, i, k, number, row);
        if i + 1 == self.rules.blocks {
            return put_line(text, at, k + 1, next, row);
        }
        let e = self.put_rest(sums, k + 1, i + 1, i + 1, next, row, text, at);
        self.put_rest(sums, k, a, i + 1, number, row, text, e)
    }

    // The lines of every layout, from the start of a text on.
    pub fn put_all(self, sums: Sums, text: &mut [u8])
        requires blocks { (0 < self.rules.blocks) × (self.rules.blocks ≤ sums.blocks) }
        requires room { length (lines_after sums.places.now 0 0 (2 ^ 60) []
            (rests (ok_by self.fits.now self.rules.longest) self.rules.most self.rules.blocks 0 0 0)) ≤ length text.old }
        ensures { text.new ≡ placed 0 (lines_after sums.entry.places.now 0 0 (2 ^ 60) []
            (rests (ok_by self.entry.fits.now self.entry.rules.longest) self.entry.rules.most self.entry.rules.blocks 0 0 0)) text.old }
    {
        let mut row = [0u8; ROW];
        self.put_rest(&sums, 0, 0, 0, BASE, &mut row[..], text, 0);
    }
}
