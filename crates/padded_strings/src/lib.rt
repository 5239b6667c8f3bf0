// Word strings padded to the greatest length: the words, a byte each, then zeros. For no string a byte that is no word, then zeros.
// Of two strings of one length the lesser is the one whose bytes come first.
#![tactic(auto)]

ghost use Rattle.std.specs.Prelude.{◌≡◌, ◌≤◌, ◌<◌, get_or};
ghost use Rattle.phrases.specs.Phrases.{word_order};
ghost use Rattle.phrases.specs.Enumeration.{is_less};
ghost use Rattle.phrases.specs.Padded.{one_word, join, lesser_word, lesser_join};

use packing::format::MAX_SLOTS;

// A string of at most as many words, padded.
pub type Padded = [u8; MAX_SLOTS];

// The byte that stands for no string.
pub const NO_STRING: u8 = 255;

// A byte, and zeros behind it.
pub fn one_word(x: u8) -> Padded
    ensures { result ≡ one_word x }
{
    let mut string = [0u8; MAX_SLOTS];
    string[0] = x;
    string
}

// The lesser of a string of one word, or of none, and of another word.
#[tactic(auto, unfolding(phrases::specs::Padded::lesser_word))]
pub fn lesser_word(best: Padded, x: u8) -> Padded
    ensures { result ≡ lesser_word best x }
{
    if x < best[0] {
        return one_word(x);
    }
    best
}

// The first i bytes of a, and then those of b.
fn join(a: &Padded, b: &Padded, i: usize) -> Padded
    requires { i ≤ MAX_SLOTS }
    ensures { result ≡ join a.now b.now i }
{
    let mut string = [0u8; MAX_SLOTS];
    string[..i].copy_from_slice(&a[..i]);
    string[i..].copy_from_slice(&b[..MAX_SLOTS - i]);
    string
}

// Byte x of these.
fn join_at(a: &Padded, b: &Padded, i: usize, x: usize) -> u8
    requires { (i ≤ MAX_SLOTS) × (x < MAX_SLOTS) }
    ensures { result ≡ get_or (join a.now b.now i) x 0 }
{
    if x < i { a[x] } else { b[x - i] }
}

// Whether they come before another string's: the first byte that differs decides.
fn join_precedes(a: &Padded, b: &Padded, i: usize, best: &Padded) -> bool
    requires { i ≤ MAX_SLOTS }
    ensures { result ≡ is_less (word_order (join a.now b.now i) best.now) }
{
    for (x, &q) in best.iter().enumerate() {
        let p = join_at(a, b, i, x);
        if p != q {
            return p < q;
        }
    }
    false
}

// The lesser of a string and of two joined, the left one of length i. Nothing is joined that is not less.
#[tactic(auto, unfolding(phrases::specs::Padded::lesser_join))]
pub fn lesser_join(best: Padded, a: &Padded, b: &Padded, i: usize) -> Padded
    requires { i ≤ MAX_SLOTS }
    ensures { result ≡ lesser_join best a.now b.now i }
{
    if a[0] == NO_STRING || b[0] == NO_STRING {
        return best;
    }
    if join_precedes(a, b, i, &best) {
        return join(a, b, i);
    }
    best
}
