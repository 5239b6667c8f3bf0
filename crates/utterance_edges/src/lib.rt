// The edges of an utterance whose slots stand in a flat array, into an array of their own.
#![tactic(auto)]

ghost use Rattle.std.specs.Prelude.{◌≡◌, [], ◌∷◌, ◌+◌, ◌*◌, ◌^◌, ◌≤◌, ◌<◌, length};
ghost use Rattle.packing.specs.Flat.{Begins, Overlaid, edge_numbers};
ghost use Rattle.packing.specs.Store.{store_all};
ghost use Rattle.utterance_edges.specs.Edges.{candidate_edges, candidates_at, edges_in};

use packing::format::{
    EDGES_LENGTH, MAX_CANDIDATES, MAX_SLOTS, NUMBERS_PER_CANDIDATE, NUMBERS_PER_EDGE,
};

// The number of candidates that the slot at place p has, the greatest that a slot can have where it says more.
fn candidates_at(slots: &[u32], p: usize) -> usize
    ensures { result ≡ candidates_at slots.now p }
{
    arrays::number_at(slots, p).min(MAX_CANDIDATES)
}

// An edge, from place p on.
pub fn store_edge(edges: &mut [u32], p: usize, from: u32, target: u32, word: u32, cost: u32)
    requires { p + 4 ≤ length edges.old }
    ensures { edges.new ≡ store_all edges.old p (from ∷ target ∷ word ∷ cost ∷ []) }
{
    edges[p..p + NUMBERS_PER_EDGE].copy_from_slice(&[from, target, word, cost]);
}

// The edges of slot `slot`, whose `count` words and costs stand from place p on, into the array from place `to` on.
fn slot_edges(slots: &[u32], slot: u32, count: usize, p: usize, edges: &mut [u32], to: usize)
    requires { (slot < MAX_SLOTS) × (count ≤ MAX_CANDIDATES) × (p < 2 ^ 32) × (to + 4 * count ≤ length edges.old) }
    ensures { edges.new ≡ store_all edges.old to (edge_numbers (candidate_edges slots.now slot count p)) }
{
    for k in 0..count {
        let word = arrays::narrow_at(slots, p + NUMBERS_PER_CANDIDATE * k);
        let cost = arrays::narrow_at(slots, p + NUMBERS_PER_CANDIDATE * k + 1);
        store_edge(edges, to + NUMBERS_PER_EDGE * k, slot, slot + 1, word, cost);
    }
}

// The edges of the `count` slots that the array begins with, four numbers each: from, to, word, cost. The answer is their
// number.
pub fn edges_of(slots: &[u32], count: usize, edges: &mut [u32]) -> usize
    requires { (count ≤ MAX_SLOTS) × (EDGES_LENGTH ≤ length edges.old) }
    ensures { (result ≡ length (edges_in slots.now count)) × Begins (edge_numbers (edges_in slots.now count)) edges.new
        × Overlaid (edge_numbers (edges_in slots.now count)) edges.old edges.new }
{
    let mut found: usize = 0;
    let mut p: usize = 0;
    for i in 0..count {
        let n = candidates_at(slots, p);
        slot_edges(slots, i as u32, n, p + 1, edges, NUMBERS_PER_EDGE * found);
        found += n;
        p += 1 + NUMBERS_PER_CANDIDATE * n;
    }
    found
}
