// The pass for one reading: what it is over. What it finds, and the nodes of the tree that it traces back, are proofs/.
#![tactic(auto)]

use chart_table::Layout;

// What a pass is over: so many rules and edges of arrays, and a table.
#[derive(Clone, Copy)]
pub struct Pass {
    pub rules: usize,
    pub edges: usize,
    pub table: Layout,
}
