// S and W of a grammar, the fields of its rules that depend on them, and the numbers of a rule.
#![tactic(auto)]

ghost use Rattle.std.specs.Prelude.{◌≡◌, ◌-◌, ◌*◌, ◌≤◌};
ghost use Rattle.bits.specs.Width.{width_of};
ghost use Rattle.packing.specs.Source.{within};
ghost use Rattle.packing.specs.Read.{field_of};
ghost use Rattle.packing.specs.Ranges.{Ranges};
ghost use Rattle.packing.specs.Refusal.{number};
ghost use Rattle.packing.specs.Grammar.{symbol, first_of, second_of};

use bits::{MAX_BELOW, MAX_WIDTH};
use packing::format::PAIR_RULE;
use packing::refusal::Refusal;
use packing::{Field, format};

// S and W, which are in their ranges.
#[derive(Clone, Copy)]
pub struct Vocabulary {
    pub symbols: u32,
    pub words: u32,
    pub ghost ranges: { Ranges symbols words },
}

// The numbers of a rule, none of them too great, and its mark. For a word rule, kind 1, the first is the word and the second 0.
#[derive(Clone, Copy)]
pub struct RuleNumbers {
    pub kind: u32,
    pub head: u32,
    pub weight: u32,
    pub first: u32,
    pub second: u32,
    pub mark: u32,
    pub ghost sound: { (kind ≤ 1) × (head ≤ 31) × (first ≤ 199) × (second ≤ 31 * (1 - kind)) },
}

// The field of a number below n.
fn below(n: u32, refusal: Refusal) -> Field
    requires { (1 ≤ n) × (n ≤ MAX_BELOW) }
    ensures { (field_of result ≡ within (width_of (n - 1)) 0 (n - 1) (number refusal)) × (result.width ≤ MAX_WIDTH) }
{
    Field {
        width: bits::width_below(n as usize),
        least: 0,
        most: n - 1,
        below: refusal,
        above: refusal,
    }
}

impl Vocabulary {
    // The field of a symbol.
    pub fn symbol(self) -> Field
        ensures { (field_of result ≡ symbol self.symbols) × (result.width ≤ MAX_WIDTH) }
    {
        below(self.symbols, Refusal::GrammarSymbol)
    }

    // The field of the first number of a rule's body.
    pub fn first(self, kind: u32) -> Field
        ensures { (field_of result ≡ first_of self.symbols self.words kind) × (result.width ≤ MAX_WIDTH) }
    {
        if kind == PAIR_RULE {
            return self.symbol();
        }
        below(self.words, Refusal::GrammarWord)
    }

    // The field of the second number of a rule's body.
    pub(crate) fn second(self, kind: u32) -> Field
        ensures { (field_of result ≡ second_of self.symbols kind) × (result.width ≤ MAX_WIDTH) }
    {
        if kind == PAIR_RULE {
            return self.symbol();
        }
        format::NOTHING_FIELD
    }
}
