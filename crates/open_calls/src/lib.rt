// The calls of an open listing, with its place by value: what each answers, as a C number, and the place afterwards.
#![tactic(auto)]

ghost use Rattle.std.specs.Prelude.{length};
ghost use Rattle.open_listing.specs.Open.{opening, lent};
ghost use Rattle.open_listing.specs.Model.{searched, next_of};
ghost use Rattle.open_calls.specs.OneByOne as onebyone;
ghost use Rattle.open_calls.specs.OneByOne.{returned};
ghost use Rattle.open_calls.specs.Model.{OpenedAs, CalledAs};

use codes::refusal;
use open_answer::Answer;
use open_search::{OPENED, Place};

// What a call of an open listing answers: a reading was handed out; all that can be listed were.
const ONE_READING: i32 = 1;

const ALL_HANDED: i32 = 2;

// Opens a listing whose place was this; with the answer the place afterwards.
pub fn open_call(grammar: &[u8], utterance: &[u8], place: Place, work: &mut [u32]) -> (i32, Place)
    ensures { OpenedAs (opening grammar.now utterance.now (length work.old)) place work.old
        (returned result.0 result.1 work.new)
        × onebyone.Open grammar.now utterance.now place work.old
        (returned result.0 result.1 work.new) }
{
    match open_listing::open(grammar, utterance, work) {
        Ok(()) => {
            let after = Place {
                handed: 0,
                opened: OPENED,
            };
            (0, after)
        }
        Err(r) => (refusal(r.number()), place),
    }
}

// One more reading of an open listing whose place is this; with the answer the place afterwards.
pub fn next_call(
    grammar: &[u8],
    utterance: &[u8],
    place: Place,
    work: &mut [u32],
    out: &mut [u8],
) -> (i32, Place)
    ensures { CalledAs (next_of grammar.now utterance.now place work.old out.old)
        place (returned result.0 result.1 work.new) out.new
        × onebyone.Next searched (lent grammar.now utterance.now place work.old out.old)
        (returned result.0 result.1 work.new) out.new }
{
    match open_listing::next(grammar, utterance, place, work, out) {
        // a match in the arm: of a pattern within another the proof does not learn the inner case
        Ok(answer) => match answer {
            Answer::Reading => {
                let after = Place {
                    handed: place.handed + 1,
                    opened: place.opened,
                };
                (ONE_READING, after)
            }
            Answer::NoMore => (0, place),
            Answer::Full => (ALL_HANDED, place),
        },
        Err(r) => (refusal(r.number()), place),
    }
}
