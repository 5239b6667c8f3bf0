// Sheets, written from flat arrays of numbers.
#![tactic(auto)]

ghost use Rattle.std.specs.Prelude.{◌++◌, ◌≤◌, length};
ghost use Rattle.packing.specs.Parse.{accepted};
ghost use Rattle.sheet_writer.specs.Answer.{Writes};

use packing::format::GRAMMAR_SHEET_HEAD;
use packing::refusal::Refusal;

// The sheet that begins with the numbers of `head` and goes on with `numbers`, in front of what stands beyond it.
#[tactic(auto, unfolding(packing::specs::Conversion::fitting))]
pub fn write_sheet(out: &mut [u32], head: &[u32], numbers: &[u32]) -> Result<usize, Refusal>
    requires { length head.now ≤ GRAMMAR_SHEET_HEAD }
    ensures { Writes (accepted (head.now ++ numbers.now)) out.old result out.new }
{
    let at = head.len();
    let length = at + numbers.len();
    if out.len() < length {
        return Err(Refusal::OutputShort);
    }
    out[..at].copy_from_slice(head);
    out[at..length].copy_from_slice(numbers);
    Ok(length)
}
