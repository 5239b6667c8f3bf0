// Utterance sheets and blocks, turned into each other under a grammar.
#![tactic(auto)]

ghost use Rattle.std.specs.Prelude.{◌≡◌, ◌≤◌, Ok};
ghost use Rattle.packing.specs.Conversion.{utterance_to_block, utterance_to_sheet, block_under, sheet_under, TurnsBack};
ghost use Rattle.sheet_writer.specs.Answer.{Writes};

use packing::format::{MAX_WORDS, RULES_LENGTH, SLOTS_LENGTH};
use packing::refusal::Refusal;
use sheet_writer::write_sheet;
use utterance_writer::write_utterance;

// The block of an utterance sheet under a grammar of `words` words.
#[tactic(auto, unfolding(packing::specs::Conversion::fitting))]
fn sheet_to_block(words: u32, sheet: &[u32], out: &mut [u8]) -> Result<usize, Refusal>
    requires { (1 ≤ words) × (words ≤ MAX_WORDS) }
    ensures { Writes (block_under words sheet.now) out.old result out.new }
{
    let mut slots = [0u32; SLOTS_LENGTH];
    let u = utterance_reader::read_sheet(sheet, words, &mut slots)?;
    write_utterance(out, words, u.count, u.numbers, &slots)
}

// The sheet of an utterance block under a grammar of `words` words.
#[tactic(auto, unfolding(packing::specs::Conversion::fitting))]
fn block_to_sheet(words: u32, block: &[u8], out: &mut [u32]) -> Result<usize, Refusal>
    requires { (1 ≤ words) × (words ≤ MAX_WORDS) }
    ensures { Writes (sheet_under words block.now) out.old result out.new }
{
    let mut slots = [0u32; SLOTS_LENGTH];
    let u = utterance_reader::read_block(block, words, &mut slots)?;
    write_sheet(out, &[u.count as u32], &slots[..u.numbers])
}

// The block of an utterance sheet under a grammar.
#[tactic(auto, unfolding(packing::specs::Conversion::fitting, packing::specs::Conversion::utterance_to_block))]
pub fn utterance_to_block(grammar: &[u8], sheet: &[u32], out: &mut [u8]) -> Result<usize, Refusal>
    ensures writes { Writes (utterance_to_block grammar.now sheet.now) out.old result out.new }
    ensures turns_back { TurnsBack (utterance_to_sheet grammar.now) sheet.now (λ n. result ≡ Ok n) out.new }
{
    let mut rules = [0u32; RULES_LENGTH];
    let z = grammar_reader::read_block(grammar, &mut rules)?;
    sheet_to_block(z.words, sheet, out)
}

// The sheet of an utterance block under a grammar.
#[tactic(auto, unfolding(packing::specs::Conversion::fitting, packing::specs::Conversion::utterance_to_sheet))]
pub fn utterance_to_sheet(grammar: &[u8], block: &[u8], out: &mut [u32]) -> Result<usize, Refusal>
    ensures writes { Writes (utterance_to_sheet grammar.now block.now) out.old result out.new }
    ensures turns_back { TurnsBack (utterance_to_block grammar.now) block.now (λ n. result ≡ Ok n) out.new }
{
    let mut rules = [0u32; RULES_LENGTH];
    let z = grammar_reader::read_block(grammar, &mut rules)?;
    block_to_sheet(z.words, block, out)
}
