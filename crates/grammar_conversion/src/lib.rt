// Grammar sheets and blocks of either kind, turned into each other.
#![tactic(auto)]

ghost use Rattle.std.specs.Prelude.{◌≡◌, ◌+◌, ◌*◌, ◌≤◌, ◌<◌, length, Ok};
ghost use Rattle.packing.specs.Conversion.{grammar_to_block, grammar_to_sheet, TurnsBack};
ghost use Rattle.packing.specs.Store.{store_all};
ghost use Rattle.sheet_writer.specs.Answer.{Writes};
ghost use Rattle.sheet_writer.specs.Arrays.{marked_row, marked_rows};

use grammar_writer::{GrammarForm, write_grammar};
use packing::format::{
    MARKED_RULES_LENGTH, MAX_RULES, NUMBERS_PER_MARKED_RULE, NUMBERS_PER_RULE, RULES_LENGTH,
};
use packing::refusal::Refusal;
use sheet_writer::write_sheet;

// The block of a grammar sheet.
#[tactic(auto, unfolding(packing::specs::Conversion::fitting, packing::specs::Conversion::grammar_to_block))]
pub fn grammar_to_block(sheet: &[u32], out: &mut [u8]) -> Result<usize, Refusal>
    ensures writes { Writes (grammar_to_block sheet.now) out.old result out.new }
    ensures turns_back { TurnsBack grammar_to_sheet sheet.now (λ n. result ≡ Ok n) out.new }
{
    let mut rules = [0u32; RULES_LENGTH];
    let mut marks = [0u32; MAX_RULES];
    let (sizes, marked) = grammar_reader::read_sheet(sheet, &mut rules, &mut marks)?;
    let form = GrammarForm {
        symbols: sizes.symbols,
        words: sizes.words,
        rules: arrays::wide(sizes.rules),
        marked,
    };
    write_grammar(out, form, &rules, &marks)
}

// The numbers of rule r and its mark into the array of both.
fn join_rule(rules: &[u32], marks: &[u32], r: usize, joined: &mut [u32])
    requires { (r < MAX_RULES) × (5 * r + 5 ≤ length rules.now) × (r < length marks.now) × (6 * r + 6 ≤ length joined.old) }
    ensures { joined.new ≡ store_all joined.old (6 * r) (marked_row rules.now marks.now r) }
{
    let from = NUMBERS_PER_RULE * r;
    let at = NUMBERS_PER_MARKED_RULE * r;
    let mark_at = at + NUMBERS_PER_RULE;
    joined[at..mark_at].copy_from_slice(&rules[from..from + NUMBERS_PER_RULE]);
    joined[mark_at] = marks[r];
}

// The numbers of n rules, each with its mark behind it.
fn join_marks(rules: &[u32], marks: &[u32], n: usize, joined: &mut [u32])
    requires { (n ≤ MAX_RULES) × (5 * n ≤ length rules.now) × (n ≤ length marks.now) × (6 * n ≤ length joined.old) }
    ensures { joined.new ≡ store_all joined.old 0 (marked_rows rules.now marks.now 0 n) }
{
    for r in 0..n {
        join_rule(rules, marks, r, joined);
    }
}

// The sheet of a grammar block.
#[tactic(auto, unfolding(packing::specs::Conversion::fitting, packing::specs::Conversion::grammar_to_sheet))]
pub fn grammar_to_sheet(block: &[u8], out: &mut [u32]) -> Result<usize, Refusal>
    ensures writes { Writes (grammar_to_sheet block.now) out.old result out.new }
    ensures turns_back { TurnsBack grammar_to_block block.now (λ n. result ≡ Ok n) out.new }
{
    let mut rules = [0u32; RULES_LENGTH];
    let mut marks = [0u32; MAX_RULES];
    let (sizes, marked) = grammar_reader::read_marked_block(block, &mut rules, &mut marks)?;
    let head = [sizes.symbols, sizes.words, sizes.rules];
    let count = arrays::wide(sizes.rules);
    if marked {
        let mut joined = [0u32; MARKED_RULES_LENGTH];
        join_marks(&rules, &marks, count, &mut joined);
        return write_sheet(out, &head, &joined[..NUMBERS_PER_MARKED_RULE * count]);
    }
    write_sheet(out, &head, &rules[..NUMBERS_PER_RULE * count])
}
