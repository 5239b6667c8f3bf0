// Tags of queued candidates. There is no room for a queued candidate's back pointer: it is given by a tag, the rank that was the
// last found when the candidate was met, and how its back pointer comes from that rank's. The candidates that follow none have one
// tag.
#![tactic(auto)]

ghost use Rattle.std.specs.Prelude.{◌≡◌, ◌<◌};
ghost use Rattle.bits.specs.Width.{u32_values};
ghost use Rattle.chart_tags.specs.Tags.{is_initial, code_of, shifted};

use chart_keys::BackPointer;

// Tags are below TAGS: CODES ways from each rank. Rank 255 has no next one, so no candidate has it: its tags are free, and the
// greatest is that of the candidates that follow none.
pub const TAGS: usize = 1024;

pub const CODES: usize = 4;

pub const INITIAL_TAG: usize = 1023;

// How the back pointer of a candidate comes from another: the next right rank, the next left rank, and from either of these
// two the other.
const NEXT_RIGHT: usize = 1;

const NEXT_LEFT: usize = 256;

const SIBLING: usize = 255;

// Whether a back pointer is of a leaf or a seed: a candidate that follows none.
pub fn is_initial(b: BackPointer) -> bool
    ensures { result ≡ is_initial b }
{
    b.split == 0 || (b.left == 0 && b.right == 0)
}

// How a back pointer comes from that of the last rank found: the code of a tag, a number, since it is a digit of what the table holds.
pub fn code_of(last: usize, back: usize) -> usize
    requires { last < u32_values }
    ensures { (result ≡ code_of last back) × (result < 4) }
{
    if back == last + NEXT_RIGHT {
        return 0;
    }
    if back == last + NEXT_LEFT {
        return 1;
    }
    if back == last + SIBLING {
        return 2;
    }
    3
}

// The back pointer that comes so from that of the last rank found.
#[tactic(auto, unfolding(crate::specs::Tags::shifted))]
pub fn shifted(last: usize, code: usize) -> usize
    requires { last < u32_values }
    ensures { result ≡ shifted last code }
{
    match code {
        0 => last + NEXT_RIGHT,
        1 => last + NEXT_LEFT,
        2 => last + SIBLING,
        _ => last.saturating_sub(SIBLING),
    }
}
