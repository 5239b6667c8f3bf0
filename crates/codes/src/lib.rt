// Answers as C numbers: 0 or more is the answer, less than 0 is minus the refusal's number.
#![tactic(auto)]

ghost use Rattle.std.specs.Prelude.{◌≡◌, ◌<◌, pos, neg_ℤ};
ghost use Rattle.packing.specs.Read.{as_verdict};
ghost use Rattle.codes.specs.Code.{code_of, Small};

use packing::refusal::Refusal;

// A count as a C number.
pub fn count(n: usize) -> i32
    requires { n < 2147483648 }
    ensures { result ≡ pos n }
{
    n as i32
}

// A refusal as a C number.
pub fn refusal(n: u32) -> i32
    requires { n < 2147483648 }
    ensures { result ≡ neg_ℤ (pos n) }
{
    0 - (n as i32)
}

// What a service answers that counts something, the bytes or numbers that it wrote or the entries that it found, as a C number.
pub fn counted_code(r: Result<usize, Refusal>) -> i32
    requires { Small r }
    ensures { result ≡ code_of (λ n. n) (as_verdict r) }
{
    match r {
        Ok(n) => count(n),
        Err(r) => refusal(r.number()),
    }
}

// The check's answer as a C number: 0 for a reading that passes.
pub fn checked_code(r: Result<(), Refusal>) -> i32
    ensures { result ≡ code_of (λ u. 0) (as_verdict r) }
{
    match r {
        Ok(()) => 0,
        Err(refused) => refusal(refused.number()),
    }
}
