// The chance of a reading: the product of its nodes' shares as a 64-bit float.
#![tactic(auto)]

ghost use Rattle.std.specs.Prelude.{◌≡◌, true, ◌≤◌, Float};
ghost use Rattle.packing.specs.Read.{as_verdict};
ghost use Rattle.chance.specs.Answer as definition;
ghost use Rattle.chance.specs.Answer.{shared_by};
ghost use Rattle.chance.specs.Chance.{are_shares, shares_of, one, factor_of, product_of, Shown};

use packing::format::{MAX_SHARE, RULES_LENGTH, WALK_LENGTH};
use packing::refusal::Refusal;

// What shares are of.
const WHOLE: f64 = 1024.0;

// The least share.
const MIN_SHARE: u32 = 1;

// A share as a fraction of the whole, which is exact.
fn factor(share: u32) -> f64
    requires { share ≤ MAX_SHARE }
    ensures { result ≡ factor_of share }
{
    share as f64 / WHOLE
}

// Whether all are shares.
fn are_shares(shares: &[u32]) -> bool
    ensures { result ≡ are_shares shares.now }
{
    for &share in shares {
        if share < MIN_SHARE {
            return false;
        }
        if MAX_SHARE < share {
            return false;
        }
    }
    true
}

// The product of the shares of the rules that a walk names, from the first on.
fn product(shares: &[u32], walk: &[u32]) -> f64
    requires { are_shares shares.now ≡ true }
    ensures { result ≡ product_of one (shares_of shares.now walk.now) }
{
    let mut p = 1.0f64;
    for r in walk {
        p *= factor(arrays::narrow_at(shares, arrays::wide(*r)));
    }
    p
}

// 60, 61 or the chance under `count` rules, of nodes whose rule numbers are a walk.
fn shared(count: usize, shares: &[u32], walk: &[u32]) -> Result<f64, Refusal>
    ensures { as_verdict result ≡ shared_by count shares.now walk.now }
{
    if shares.len() != count {
        return Err(Refusal::SharesCount);
    }
    if !are_shares(shares) {
        return Err(Refusal::ShareRange);
    }
    Ok(product(shares, walk))
}

// The chance of a reading that passes the check, by the share of each rule.
pub fn chance(grammar: &[u8], heard: &[u8], reading: &[u8], shares: &[u32]) -> Result<f64, Refusal>
    ensures value { as_verdict result ≡ definition.chance grammar.now heard.now reading.now shares.now }
    ensures shown { (x : Float) → result ≡ Ok x
        → Shown grammar.now heard.now reading.now shares.now x }
{
    let mut rules = [0u32; RULES_LENGTH];
    let mut walk = [0u32; WALK_LENGTH];
    let sizes = grammar_reader::read_block(grammar, &mut rules)?;
    let count = sizes.rules as usize;
    let nodes = checker::check_heard(&rules, count, sizes.words, heard, reading, &mut walk)?;
    shared(count, shares, &walk[..nodes])
}
