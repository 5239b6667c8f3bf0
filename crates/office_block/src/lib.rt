// Office sheets, turned into grammar blocks with marks.
#![tactic(auto)]

ghost use Rattle.std.specs.Prelude.{◌≡◌, ◌-◌, ◌≤◌, length, replicate};
ghost use Rattle.packing.specs.Store.{store_all};
ghost use Rattle.sheet_writer.specs.Answer.{Writes};
ghost use Rattle.office_block.specs.Block.{office_to_block};

use grammar_writer::{GrammarForm, write_grammar};
use packing::format;
use packing::format::{MAX_RULES, RULES_LENGTH};
use packing::refusal::Refusal;

// The marks of helpers, from place `first` up to place n.
fn mark_helpers(marks: &mut [u32], first: usize, n: usize)
    requires { (first ≤ n) × (n ≤ MAX_RULES) × (n ≤ length marks.old) }
    ensures { marks.new ≡ store_all marks.old first (replicate (n - first) 1) }
{
    marks[first..n].fill(format::MARKED);
}

// The block of an office sheet.
pub fn office_to_block(sheet: &[u32], out: &mut [u8]) -> Result<usize, Refusal>
    ensures { Writes (office_to_block sheet.now) out.old result out.new }
{
    let mut rules = [0u32; RULES_LENGTH];
    let (z, first) = office_conversion::read_grammar(sheet, &mut rules)?;
    let mut marks = [0u32; MAX_RULES];
    let count = arrays::wide(z.rules);
    mark_helpers(&mut marks, arrays::wide(first), count);
    let form = GrammarForm {
        symbols: z.symbols,
        words: z.words,
        rules: count,
        marked: true,
    };
    write_grammar(out, form, &rules, &marks)
}
