// The functions of the library for C and Rust (include/spireyerba.h): each public function is a call of a service, with the answer as one
// number: 0 or more is the answer, less than 0 is minus the refusal's number.
#![tactic(auto)]

ghost use Rattle.std.specs.Prelude.{◌≡◌, length};
ghost use Rattle.packing.specs.Conversion.{grammar_to_block, grammar_to_sheet, utterance_to_block, utterance_to_sheet, fitting, written};
ghost use Rattle.office_block.specs.Block.{office_to_block};
ghost use Rattle.checker.specs.Check.{check};
ghost use Rattle.chance.specs.Answer as definition;
ghost use Rattle.listing.specs.Conditions.{library, panel};
ghost use Rattle.listing.specs.Listing.{list, output_after};
ghost use Rattle.cost_ranges.specs.CostRanges.{ranges};
ghost use Rattle.word_margins.specs.WordMargins as again;
ghost use Rattle.specimen.specs.Specimen.{specimen, string_length, output_of};
ghost use Rattle.next_phrase.specs.NextPhrase.{next};
ghost use Rattle.spireyerba.specs.Code.{check_code, chance_after, AnsweredAs, ListedAs, RangedAs};
ghost use Rattle.spireyerba.specs.Demands as demands;
ghost use Rattle.open_listing.specs.Open.{opening, lent};
ghost use Rattle.open_listing.specs.Model.{searched, next_of};
ghost use Rattle.open_calls.specs.OneByOne as onebyone;
ghost use Rattle.open_calls.specs.OneByOne.{returned};
ghost use Rattle.open_calls.specs.Model.{OpenedAs, CalledAs};

use codes::{checked_code, counted_code, refusal};
use cost_ranges::Ranged;
use listing::listing_within;
use listing_limits::PANEL;
use open_calls::{next_call, open_call};
use open_search::Place;

// The block of a grammar sheet, at the front of the output.
pub fn spireyerba_grammar_to_block(sheet: &[u32], out: &mut [u8]) -> i32
    ensures answered_as { AnsweredAs length written (fitting (grammar_to_block sheet.now) out.old) out.old result out.new }
    ensures grammar_to_block { demands.GrammarToBlock sheet.now out.old result out.new }
{
    counted_code(grammar_conversion::grammar_to_block(sheet, out))
}

// The sheet of a grammar block.
pub fn spireyerba_grammar_to_sheet(block: &[u8], out: &mut [u32]) -> i32
    ensures answered_as { AnsweredAs length written (fitting (grammar_to_sheet block.now) out.old) out.old result out.new }
    ensures grammar_to_sheet { demands.GrammarToSheet block.now out.old result out.new }
{
    counted_code(grammar_conversion::grammar_to_sheet(block, out))
}

// The block of an office sheet, a grammar's with marks.
pub fn spireyerba_office_to_block(sheet: &[u32], out: &mut [u8]) -> i32
    ensures answered_as { AnsweredAs length written (fitting (office_to_block sheet.now) out.old) out.old result out.new }
    ensures office_to_block { demands.OfficeToBlock sheet.now out.old result out.new }
{
    counted_code(office_block::office_to_block(sheet, out))
}

// The block of an utterance sheet under a grammar.
pub fn spireyerba_utterance_to_block(grammar: &[u8], sheet: &[u32], out: &mut [u8]) -> i32
    ensures answered_as { AnsweredAs length written (fitting (utterance_to_block grammar.now sheet.now) out.old) out.old result
        out.new }
    ensures utterance_to_block { demands.UtteranceToBlock grammar.now sheet.now out.old result out.new }
{
    counted_code(utterance_conversion::utterance_to_block(grammar, sheet, out))
}

// The sheet of an utterance block under a grammar.
pub fn spireyerba_utterance_to_sheet(grammar: &[u8], block: &[u8], out: &mut [u32]) -> i32
    ensures answered_as { AnsweredAs length written (fitting (utterance_to_sheet grammar.now block.now) out.old) out.old result
        out.new }
    ensures utterance_to_sheet { demands.UtteranceToSheet grammar.now block.now out.old result out.new }
{
    counted_code(utterance_conversion::utterance_to_sheet(grammar, block, out))
}

// The readings of the least derivations, one after another at the front of the output: their number.
pub fn spireyerba_listing(
    grammar: &[u8],
    utterance: &[u8],
    wanted: u32,
    work: &mut [u32],
    out: &mut [u8],
) -> i32
    ensures listed_as { ListedAs output_after
        (list library grammar.now utterance.now wanted (length work.old) (length out.old))
        work.old out.old result work.new out.new }
    ensures listing { demands.Listing grammar.now utterance.now wanted work.old out.old result work.new
        out.new }
{
    counted_code(listing::listing(grammar, utterance, wanted, work, out))
}

// The same within the limits of the panel for plan desks.
pub fn spireyerba_panel_listing(
    grammar: &[u8],
    utterance: &[u8],
    wanted: u32,
    work: &mut [u32],
    out: &mut [u8],
) -> i32
    ensures listed_as { ListedAs output_after
        (list panel grammar.now utterance.now wanted (length work.old) (length out.old))
        work.old out.old result work.new out.new }
    ensures panel_listing { demands.PanelListing grammar.now utterance.now wanted work.old out.old result work.new
        out.new }
{
    counted_code(listing_within(PANEL, grammar, utterance, wanted, work, out))
}

// Whether a reading passes the check: 0 if it does.
pub fn spireyerba_check(grammar: &[u8], utterance: &[u8], reading: &[u8]) -> i32
    ensures value { result ≡ check_code (check grammar.now utterance.now reading.now) }
    ensures check { demands.Check grammar.now utterance.now reading.now result }
{
    checked_code(checker::check(grammar, utterance, reading))
}

// The chance of a reading that passes the check, by the share of each rule: 0, with the product in `chance`.
pub fn spireyerba_chance(
    grammar: &[u8],
    utterance: &[u8],
    reading: &[u8],
    shares: &[u32],
    chance: &mut f64,
) -> i32
    ensures answered_as { AnsweredAs (λ x. 0) chance_after
        (definition.chance grammar.now utterance.now reading.now shares.now)
        chance.old result chance.new }
    ensures chance { demands.Chance grammar.now utterance.now reading.now shares.now chance.old result
        chance.new }
{
    match chance::chance(grammar, utterance, reading, shares) {
        Ok(x) => {
            *chance = x;
            0
        }
        Err(r) => refusal(r.number()),
    }
}

// The least word string of the wanted length that the grammar derives: the length, or 0 where there is none.
pub fn spireyerba_specimen(grammar: &[u8], wanted: u32, out: &mut [u8]) -> i32
    ensures answered_as { AnsweredAs string_length output_of (specimen grammar.now wanted (length out.old)) out.old result
        out.new }
    ensures specimen { demands.Specimen grammar.now wanted out.old result out.new }
{
    counted_code(specimen::specimen(grammar, wanted, out))
}

// A word string of the wanted length that the grammar derives: the least, or if `first` is 0 the least above the one at the front of the
// output. The length, or 0 where there is none.
pub fn spireyerba_next_phrase(grammar: &[u8], wanted: u32, first: u32, out: &mut [u8]) -> i32
    ensures answered_as { AnsweredAs string_length output_of (next grammar.now wanted first out.old) out.old result
        out.new }
    ensures next_phrase { demands.NextPhrase grammar.now wanted first out.old result out.new }
{
    counted_code(next_phrase::next_phrase(grammar, wanted, first, out))
}

// How the first weight varies where costs are known within ranges, between those of two blocks: 0 where there is no derivation, else the least and the
// greatest first weight in `least` and `greatest`, with 1 if the first reading for the low costs is outweighed under some choice, and 2 if under none.
pub fn spireyerba_cost_ranges(
    grammar: &[u8],
    low: &[u8],
    high: &[u8],
    work: &mut [u32],
    least: &mut u32,
    greatest: &mut u32,
) -> i32
    ensures ranged_as { RangedAs (ranges grammar.now low.now high.now (length work.old)) work.old
        least.old greatest.old result work.new least.new greatest.new }
    ensures cost_ranges { demands.CostRanges grammar.now low.now high.now work.old least.old
        greatest.old result work.new least.new greatest.new }
{
    match cost_ranges::cost_ranges(grammar, low, high, work) {
        // a match in the arm: of a pattern within another the proof does not learn the inner case
        Ok(ranged) => match ranged {
            Ranged::Nothing => 0,
            Ranged::Outweighed(w) => {
                *least = w.least;
                *greatest = w.greatest;
                1
            }
            Ranged::Stands(v) => {
                *least = v.least;
                *greatest = v.greatest;
                2
            }
        },
        Err(r) => refusal(r.number()),
    }
}

// The words to listen to again, four numbers each at the front of the output: their number.
pub fn spireyerba_word_margins(
    grammar: &[u8],
    utterance: &[u8],
    work: &mut [u32],
    out: &mut [u32],
) -> i32
    ensures listed_as { ListedAs again.output_after
        (again.margins grammar.now utterance.now (length work.old) (length out.old))
        work.old out.old result work.new out.new }
    ensures word_margins { demands.WordMargins grammar.now utterance.now work.old out.old result work.new
        out.new }
{
    counted_code(word_margins::word_margins(grammar, utterance, work, out))
}

// Opens a listing: 0, with the place of no readings handed out and the work table all zeros.
pub fn spireyerba_open(grammar: &[u8], utterance: &[u8], place: &mut Place, work: &mut [u32]) -> i32
    ensures { OpenedAs (opening grammar.now utterance.now (length work.old)) place.old work.old
        (returned result place.new work.new)
        × onebyone.Open grammar.now utterance.now place.old work.old
        (returned result place.new work.new) }
{
    let (code, opened) = open_call(grammar, utterance, *place, work);
    *place = opened;
    code
}

// One more reading of an open listing at the front of the output: 1, or 0 where there are no more and 2 where all that can be listed were handed
// out.
pub fn spireyerba_next(
    grammar: &[u8],
    utterance: &[u8],
    place: &mut Place,
    work: &mut [u32],
    out: &mut [u8],
) -> i32
    ensures { CalledAs (next_of grammar.now utterance.now place.old work.old out.old)
        place.old (returned result place.new work.new) out.new
        × onebyone.Next searched (lent grammar.now utterance.now place.old work.old out.old)
        (returned result place.new work.new) out.new }
{
    let (code, moved) = next_call(grammar, utterance, *place, work, out);
    *place = moved;
    code
}
