// The eight least readings of what was heard, slots or a word graph, under a grammar, with the row that the lister prints of each.
#![tactic(auto)]

ghost use Rattle.std.specs.Prelude.{◌≡◌, ◌≤◌, length};
ghost use Rattle.packing.specs.Read.{as_verdict};
ghost use Rattle.listing.specs.Conditions.{library};
ghost use Rattle.inputs.specs.Answer.{Lists};
ghost use Rattle.chart.specs.WorkTable.{work_after};
ghost use Rattle.listing.specs.Listing.{list, output_after};
ghost use Rattle.reading_rows.specs.Rows.{room_for, Told};
ghost use Rattle.lines.specs.Shapes.{ShapeOf};

use inputs::Listed;
use packing::format::{EDGES_LENGTH, MAX_RULES, RULES_LENGTH};
use reading_rows::{SHOWN_NUMBERS, Shape, write_rows};

// The number of readings that document 01 has the lister ask for.
const WANTED: u32 = 8;

// The shape of what the blocks mean, with the rules and their marks in the arrays; slots, 1 and 1 where a block is refused.
fn shape_of(grammar: &[u8], utterance: &[u8], rules: &mut [u32], marks: &mut [u32]) -> Shape
    requires { (RULES_LENGTH ≤ length rules.old) × (MAX_RULES ≤ length marks.old) }
    ensures { ShapeOf grammar.now utterance.now rules.new marks.new result }
{
    let none = Shape {
        graph: false,
        last: 1,
        rules: 1,
    };
    let Ok((sizes, _)) = grammar_reader::read_marked_block(grammar, rules, marks) else {
        return none;
    };
    let mut edges = [0u32; EDGES_LENGTH];
    let Ok(found) = heard_reader::read_heard(utterance, sizes.words, &mut edges) else {
        return none;
    };
    Shape {
        graph: found.graph,
        last: found.last,
        rules: sizes.rules as usize,
    }
}

// The listing of eight readings, where `shown` has room for their rows.
fn lines_within(
    grammar: &[u8],
    heard: &[u8],
    work: &mut [u32],
    out: &mut [u8],
    shown: &mut [u32],
) -> Listed
    requires { 400 ≤ length shown.old }
    ensures lists { Lists work_after output_after
        (list library grammar.now heard.now 8 (length work.old) (length out.old))
        work.old out.old result work.new out.new }
    ensures told { Told grammar.now heard.now (length work.old) (length out.old) (as_verdict result) shown.old
        shown.new }
{
    let mut rules = [0u32; RULES_LENGTH];
    let mut marks = [0u32; MAX_RULES];
    let s = shape_of(grammar, heard, &mut rules, &mut marks);
    let m = listing::listing(grammar, heard, WANTED, work, out)?;
    write_rows(&out[..], m, &rules, &marks, s, shown);
    Ok(m)
}

// The listing of eight readings, with a row for each that is found in `shown`. Where that is shorter than eight rows, no output suffices.
pub fn lines(
    grammar: &[u8],
    heard: &[u8],
    work: &mut [u32],
    out: &mut [u8],
    shown: &mut [u32],
) -> Listed
    ensures lists { Lists work_after output_after
        (list library grammar.now heard.now 8 (length work.old)
        (room_for (length out.old) (length shown.old)))
        work.old out.old result work.new out.new }
    ensures told { Told grammar.now heard.now (length work.old)
        (room_for (length out.old) (length shown.old)) (as_verdict result) shown.old shown.new }
{
    if shown.len() < SHOWN_NUMBERS {
        let mut none = [0u8; 1];
        return listing::listing(grammar, heard, WANTED, work, &mut none[..0]);
    }
    lines_within(grammar, heard, work, out, shown)
}
