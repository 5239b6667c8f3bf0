// Grammar blocks and sheets, read into flat arrays of numbers that the caller lends: five for each rule, and its mark.
#![tactic(auto)]

ghost use Rattle.std.specs.Prelude.{◌≡◌, ◌+◌, ◌*◌, ◌^◌, ◌≤◌, ◌<◌, eqb, length, get_or};
ghost use Rattle.packing.specs.Read.{source_of, field_of, as_parse, as_verdict};
ghost use Rattle.packing.specs.Grammar.{block_kind, kind_number, block_by, marked_block, marked_sheet, grammar_block};
ghost use Rattle.packing.specs.Grammar as grammar;
ghost use Rattle.packing.specs.Flat.{RulesIn};
ghost use Rattle.grammar_reader.specs.Answer.{sizes_told, InBounds, RulesOver, MarkedTold};
ghost use Rattle.grammar_reader.specs.Parts.{sizes_from, SizesNear, GrammarTold};

use bits::MAX_WIDTH;
use packing::format::{
    GRAMMAR_SHEET_HEAD, MAX_RULES, NUMBERS_PER_MARKED_RULE, NUMBERS_PER_RULE, RULES_LENGTH,
    SIZES_WIDTH,
};
use packing::refusal::Refusal;
use packing::{Field, Source, format};
use rules_reader::{RulesForm, Vocabulary};

// S, W and R of a grammar.
#[derive(Clone, Copy)]
pub struct Sizes {
    pub symbols: u32,
    pub words: u32,
    pub rules: u32,
}

// S, W and R, from a place of the source, and the next place.
#[tactic(auto, unfolding(crate::specs::Parts::sizes_from))]
pub fn read_sizes(src: Source, at: usize) -> Result<(Sizes, usize), Refusal>
    requires { at < 2 ^ 16 }
    ensures { (as_parse result ≡ sizes_from (source_of src.entry) at) × SizesNear (at + SIZES_WIDTH) result }
{
    let read = src.field_at(at, format::SYMBOLS_FIELD);
    let Ok((symbols, at)) = read else {
        return Err(read.unwrap_err());
    };
    let read = src.field_at(at, format::WORDS_FIELD);
    let Ok((words, at)) = read else {
        return Err(read.unwrap_err());
    };
    let read = src.field_at(at, format::RULES_FIELD);
    let Ok((rules, at)) = read else {
        return Err(read.unwrap_err());
    };
    let sizes = Sizes {
        symbols,
        words,
        rules,
    };
    Ok((sizes, at))
}

// Whether a sheet has not the numbers of its grammar's rules.
fn unfit(src: Source, rules: u32, marked: bool) -> bool
    requires { rules ≤ MAX_RULES }
    ensures { result ≡ grammar.unfit marked (source_of src.entry) rules }
{
    match src {
        Source::Block(_, _) => false,
        Source::Sheet(sheet) => {
            let numbers = if marked {
                NUMBERS_PER_MARKED_RULE
            } else {
                NUMBERS_PER_RULE
            };
            sheet.len() != GRAMMAR_SHEET_HEAD + numbers * (rules as usize)
        }
    }
}

// S, W and R and the rules, from a place of the source: the sizes and the next place.
fn read_grammar(
    src: Source,
    at: usize,
    marked: bool,
    rules: &mut [u32],
    marks: &mut [u32],
) -> Result<(Sizes, usize), Refusal>
    requires { (at < 2 ^ 7) × (RULES_LENGTH ≤ length rules.old) × (MAX_RULES ≤ length marks.old) }
    ensures { GrammarTold marked (source_of src.entry) at result rules.old rules.new marks.new }
{
    let (sizes, at) = read_sizes(src, at)?;
    if unfit(src, sizes.rules, marked) {
        return Err(Refusal::SheetCount);
    }
    let form = RulesForm {
        vocabulary: Vocabulary {
            symbols: sizes.symbols,
            words: sizes.words,
        },
        count: sizes.rules as usize,
        marked,
    };
    let at = rules_reader::read_rules(src, at, form, rules, marks)?;
    Ok((sizes, at))
}

// The field of a block's kind, without and with marks.
fn kind_field(marked: bool) -> Field
    ensures { (field_of result ≡ block_kind (kind_number marked) 2) × (result.width ≤ MAX_WIDTH) }
{
    if marked {
        return format::MARKED_GRAMMAR_KIND_FIELD;
    }
    format::GRAMMAR_KIND_FIELD
}

// The sizes of a block of a kind, with its rules and marks in the arrays.
fn read_kind(
    block: &[u8],
    marked: bool,
    rules: &mut [u32],
    marks: &mut [u32],
) -> Result<(Sizes, bool), Refusal>
    requires { (RULES_LENGTH ≤ length rules.old) × (MAX_RULES ≤ length marks.old) }
    ensures { MarkedTold (block_by marked block.now) result rules.old rules.new marks.new }
{
    let src = Source::Block(block, Refusal::GrammarEnd);
    let read = src.field_at(0, kind_field(marked));
    let Ok((_, at)) = read else {
        return Err(read.unwrap_err());
    };
    let (sizes, at) = read_grammar(src, at, marked, rules, marks)?;
    if !bit_reader::zero_from(block, at) {
        return Err(Refusal::GrammarFill);
    }
    Ok((sizes, marked))
}

// The sizes of a grammar block of either kind, and whether it is the one with marks, with its rules and marks in the arrays.
pub fn read_marked_block(
    block: &[u8],
    rules: &mut [u32],
    marks: &mut [u32],
) -> Result<(Sizes, bool), Refusal>
    requires { (RULES_LENGTH ≤ length rules.old) × (MAX_RULES ≤ length marks.old) }
    ensures { MarkedTold (marked_block block.now) result rules.old rules.new marks.new }
{
    let marked = packing::is_kind(block, format::MARKED_GRAMMAR_BLOCK);
    read_kind(block, marked, rules, marks)
}

// The sizes of a grammar block of either kind, with its rules in the array and without its marks.
pub fn read_block(block: &[u8], rules: &mut [u32]) -> Result<Sizes, Refusal>
    requires { RULES_LENGTH ≤ length rules.old }
    ensures { (as_verdict result ≡ sizes_told (grammar_block block.now)) × RulesIn (grammar_block block.now) rules.new × InBounds result
        × RulesOver (grammar_block block.now) rules.old rules.new }
{
    let mut marks = [0u32; MAX_RULES];
    let (sizes, _) = read_marked_block(block, rules, &mut marks)?;
    Ok(sizes)
}

// Whether a sheet has as many numbers as R rules with marks.
fn is_marked_sheet(sheet: &[u32]) -> bool
    requires { 3 ≤ length sheet.now }
    ensures { result ≡ eqb (length sheet.now) (3 + 6 * get_or sheet.now 2 0) }
{
    let rules = sheet[format::SHEET_RULES_AT];
    sheet.len() == GRAMMAR_SHEET_HEAD + NUMBERS_PER_MARKED_RULE * (rules as usize)
}

// The sizes of a grammar sheet of either kind, and whether it is the one with marks, with its rules and marks in the arrays.
pub fn read_sheet(
    sheet: &[u32],
    rules: &mut [u32],
    marks: &mut [u32],
) -> Result<(Sizes, bool), Refusal>
    requires { (RULES_LENGTH ≤ length rules.old) × (MAX_RULES ≤ length marks.old) }
    ensures { MarkedTold (marked_sheet sheet.now) result rules.old rules.new marks.new }
{
    if sheet.len() < GRAMMAR_SHEET_HEAD {
        return Err(Refusal::SheetCount);
    }
    let marked = is_marked_sheet(sheet);
    let (sizes, _) = read_grammar(Source::Sheet(sheet), 0, marked, rules, marks)?;
    Ok((sizes, marked))
}
