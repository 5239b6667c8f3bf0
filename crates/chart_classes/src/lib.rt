// The classes of an index: rules by kind and head, and edges by the place that they leave. Where an index has the members of a
// class, one after another.
#![tactic(auto)]

ghost use Rattle.std.specs.Prelude.{◌≡◌, ◌<◌, ◌≤◌};
ghost use Rattle.bits.specs.Width.{u32_values};
ghost use Rattle.chart_classes.specs.Classes.{index_numbers, class_start, class_end};

use arrays::number_at;
use packing::format::{MAX_RULES, MAX_SYMBOLS};

// The bases of the groups, rules and edges: from its base on the index says where each class's members start, and where the last
// class ends. The classes of pair rules are their heads, and those of word rules stand behind them, with a base of their own.
pub const PAIR_BASE: usize = 0;

pub const WORD_BASE: usize = PAIR_BASE + WORD_CLASSES;

pub const EDGE_BASE: usize = 80;

pub const WORD_CLASSES: usize = MAX_SYMBOLS;

// The rules, and the edges, that an index has room for.
pub const ROOM: usize = MAX_RULES;

// Where the groups' members stand.
pub const RULE_MEMBERS: usize = 128;

pub const EDGE_MEMBERS: usize = RULE_MEMBERS + ROOM;

// The numbers of an index.
pub const INDEX_NUMBERS: usize = EDGE_MEMBERS + ROOM;

// Where a class of a group starts in the index, and where it ends.
pub fn class_start(index: &[u32], base: usize, c: usize) -> usize
    requires { (base ≤ index_numbers) × (c ≤ u32_values) }
    ensures { (result ≡ class_start index.now base c) × (result < u32_values) }
{
    number_at(index, base + c)
}

pub fn class_end(index: &[u32], base: usize, c: usize) -> usize
    requires { (base ≤ index_numbers) × (c ≤ u32_values) }
    ensures { (result ≡ class_end index.now base c) × (result < u32_values) }
{
    number_at(index, base + c + 1)
}
