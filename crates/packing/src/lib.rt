// What blocks and sheets are made of, and the reading of one number of them.
#![tactic(auto)]

pub mod format; // format.rt: ranges, widths and fields of the formats
pub mod refusal; // refusal.rt: the refusals of document 01's table

ghost use Rattle.std.specs.Prelude.{◌≡◌, ◌+◌, ◌*◌, ◌^◌, ◌≤◌, ◌<◌, leb, eqb, length};
ghost use Rattle.bits.specs.Bits.{field};
ghost use Rattle.packing.specs.Source.{in_range, field_at};
ghost use Rattle.packing.specs.Read.{field_of, source_of, as_parse};

use crate::refusal::Refusal;
use bits::MAX_FIELD_WIDTH;

// A symbol of the grammar, V of document 001.
#[derive(Clone, Copy)]
pub struct Sym(pub u32);

// A word, Σ of document 001.
#[derive(Clone, Copy)]
pub struct Word(pub u32);

// A rule of the grammar.
#[derive(Clone, Copy)]
pub enum Rule {
    // head, first, second, weight
    Pair(Sym, Sym, Sym, u32),
    // head, word, weight
    Word(Sym, Word, u32),
}

// A number of a block or a sheet: its width in a block, its least and greatest value, and the refusals of a
// value below and above.
#[derive(Clone, Copy)]
pub struct Field {
    pub width: usize,
    pub least: u32,
    pub most: u32,
    pub below: Refusal,
    pub above: Refusal,
}

// Where numbers are read from: a block, with the refusal of a field that passes its end, or a sheet. A place is a bit of a block, or a
// number of a sheet.
#[derive(Clone, Copy)]
pub enum Source<'a> {
    Block(&'a [u8], Refusal),
    Sheet(&'a [u32]),
}

// Whether a block has the `width` bits from bit `at`.
fn has_field(block: &[u8], at: usize, width: usize) -> bool
    requires { (at < 2 ^ 32) × (width ≤ MAX_FIELD_WIDTH) }
    ensures { result ≡ leb (at + width) (8 * length block.now) }
{
    (at + width + 7) / 8 <= block.len()
}

// Whether a block is of a kind. An empty one is of none.
pub fn is_kind(block: &[u8], kind: u32) -> bool
    requires { 0 < kind }
    ensures { result ≡ eqb (field block.now 0 4) kind }
{
    if block.is_empty() {
        return false;
    }
    bit_reader::read_field(block, 0, format::KIND_WIDTH) == kind
}

// A value that was found and the place behind it, if it is in its range.
#[tactic(auto, unfolding(crate::specs::Source::in_range))]
fn in_range(f: Field, v: u32, next: usize) -> Result<(u32, usize), Refusal>
    ensures { as_parse result ≡ in_range (field_of f) v next }
{
    if f.most < v {
        return Err(f.above);
    }
    if v < f.least {
        return Err(f.below);
    }
    Ok((v, next))
}

impl Source<'_> {
    // The number at a place, and the next place.
    #[tactic(auto, unfolding(crate::specs::Source::field_at))]
    pub fn field_at(self, at: usize, f: Field) -> Result<(u32, usize), Refusal>
        requires { (at < 2 ^ 32) × (f.width ≤ MAX_FIELD_WIDTH) }
        ensures { as_parse result ≡ field_at (source_of self.entry) at (field_of f) }
    {
        let width = f.width;
        match self {
            Source::Block(block, missing) => {
                if has_field(block, at, width) {
                    return in_range(f, bit_reader::read_field(block, at, width), at + width);
                }
                Err(missing)
            }
            Source::Sheet(sheet) => {
                if at < sheet.len() {
                    return in_range(f, sheet[at], at + 1);
                }
                Err(Refusal::SheetCount)
            }
        }
    }
}
