// What the lister prints of readings, of slots or of a word graph, as rows of numbers. Nodes whose rule is marked, as helpers' rules are, are left
// out.
#![tactic(auto)]

ghost use Rattle.std.specs.Prelude.{◌≡◌, [], ◌∷◌, ◌++◌, ◌+◌, ◌-◌, ◌*◌, ◌≤◌, ◌<◌, length, take, drop};
ghost use Rattle.office_theory.specs.Matching.{without_marked};
ghost use Rattle.reading_rows.specs.Model.{Bounded, size_of, Few, Says, SlotsSay, GraphSays, WalkRead, Shown, RowSays, RowsSay};

use graph_reading_reader::{read_head, read_node};
use packing::format::{GRAPH_READING_HEAD, UNMARKED, WALK_LENGTH};
use reading_reader::read_reading;
use traced_readings::form_of;

// A row: rank, weight, how many rule numbers, these, and zeros; and the numbers of all rows.
pub const RANK_AT: usize = 0;

pub const WEIGHT_AT: usize = 1;

pub const COUNT_AT: usize = 2;

pub const RULES_AT: usize = 3;

pub const ROW_NUMBERS: usize = 50;

pub const SHOWN_NUMBERS: usize = 400;

// Whether readings are of a graph, the last place (n, or P - 1), and R: on these the length of a reading depends.
#[derive(Clone, Copy)]
pub struct Shape {
    pub graph: bool,
    pub last: usize,
    pub rules: usize,
}

// What a row has beside its rank and its rule numbers: the weight, and how many numbers there are.
#[derive(Clone, Copy)]
struct Line {
    weight: u32,
    nodes: usize,
}

// The length of a reading in the output.
fn size_of(s: Shape) -> usize
    requires { Bounded s }
    ensures { result ≡ size_of s }
{
    let form = form_of(s.graph, s.last, s.rules);
    form.size
}

// The line of a reading of slots, with its rule numbers at the front of `walk`.
fn slots_line(block: &[u8], s: Shape, walk: &mut [u32]) -> Line
    requires { (Bounded s) × (WALK_LENGTH ≤ length walk.old) }
    ensures { (Few result) × SlotsSay s block.now result walk.new }
{
    let n = s.last;
    let nodes = 2 * n - 1;
    let Ok((weight, _)) = read_reading(block, n, s.rules, walk) else {
        return Line { weight: 0, nodes };
    };
    Line { weight, nodes }
}

// The rule numbers of the nodes of a graph's reading, at the front of `walk`.
fn read_walk(block: &[u8], rules: &[u32], count: usize, nodes: usize, walk: &mut [u32])
    requires { (1 ≤ count) × (count ≤ 256) × (nodes ≤ 47) × (47 ≤ length walk.old) }
    ensures { WalkRead rules.now count nodes block.now walk.new }
{
    let mut at = GRAPH_READING_HEAD;
    for i in 0..nodes {
        let Some((node, next)) = read_node(rules, count, block, at) else {
            return;
        };
        walk[i] = node.rule as u32;
        at = next;
    }
}

// The line of a reading of a graph, which has zeros behind it.
fn graph_line(block: &[u8], rules: &[u32], s: Shape, walk: &mut [u32]) -> Line
    requires { (Bounded s) × (WALK_LENGTH ≤ length walk.old) }
    ensures { (Few result) × GraphSays rules.now s block.now result walk.new }
{
    let Ok((head, _)) = read_head(block, s.last, s.rules) else {
        return Line {
            weight: 0,
            nodes: 0,
        };
    };
    let nodes = 2 * head.edges - 1;
    read_walk(block, rules, s.rules, nodes, walk);
    Line {
        weight: head.weight,
        nodes,
    }
}

// The line of a reading with all its nodes.
fn line_of(block: &[u8], rules: &[u32], s: Shape, walk: &mut [u32]) -> Line
    requires { (Bounded s) × (WALK_LENGTH ≤ length walk.old) }
    ensures { (Few result) × Says rules.now s block.now result walk.new }
{
    if s.graph {
        return graph_line(block, rules, s, walk);
    }
    slots_line(block, s, walk)
}

// A rule's number behind the first k numbers, unless the rule is marked: how many there are then.
fn show_rule(rule: u32, marks: &[u32], shown: &mut [u32], k: usize) -> usize
    requires { k < length shown.old }
    ensures { (k ≤ result) × (result ≤ k + 1) × (take result shown.new ≡ take k shown.old ++ without_marked marks.now (rule ∷ []))
        × (drop result shown.new ≡ drop result shown.old) }
{
    if arrays::narrow_at(marks, arrays::wide(rule)) == UNMARKED {
        shown[k] = rule;
        return k + 1;
    }
    k
}

// The numbers of a walk whose rules are not marked, in their order at the front of `shown`: how many.
fn leave_out(walk: &[u32], marks: &[u32], shown: &mut [u32]) -> usize
    requires { length walk.now ≤ length shown.old }
    ensures { (result ≤ length walk.now) × Shown marks.now walk.now result shown.old shown.new }
{
    let mut k = 0;
    for &rule in walk {
        k = show_rule(rule, marks, shown, k);
    }
    k
}

// The row of a reading, whatever stood in it.
fn write_row(block: &[u8], rules: &[u32], marks: &[u32], s: Shape, rank: u32, row: &mut [u32])
    requires { (Bounded s) × (length row.old ≡ 50) }
    ensures { RowSays rules.now marks.now s block.now rank row.new }
{
    let mut walk = [0u32; WALK_LENGTH];
    let line = line_of(block, rules, s, &mut walk);
    arrays::zero(row);
    let count = leave_out(&walk[..line.nodes], marks, &mut row[RULES_AT..]);
    arrays::store(row, RANK_AT, rank);
    arrays::store(row, WEIGHT_AT, line.weight);
    arrays::store(row, COUNT_AT, count as u32);
}

// A row for each of the first m readings of the output.
pub fn write_rows(out: &[u8], m: usize, rules: &[u32], marks: &[u32], s: Shape, shown: &mut [u32])
    requires { (Bounded s) × (m ≤ 8) × (m * size_of s ≤ length out.now) × (400 ≤ length shown.old) }
    ensures { RowsSay rules.now marks.now s out.now m shown.old shown.new }
{
    let size = size_of(s);
    for k in 0..m {
        let from = k * size;
        let upto = from + size;
        let at = k * ROW_NUMBERS;
        let end = at + ROW_NUMBERS;
        write_row(
            &out[from..upto],
            rules,
            marks,
            s,
            (k + 1) as u32,
            &mut shown[at..end],
        );
    }
}
