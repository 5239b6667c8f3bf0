// The right parts that are still to be traced while a left part is.
#![tactic(auto)]

ghost use Rattle.std.specs.Prelude.{◌≤◌};

use chart_keys::SPLITS;
use chart_table::{Cell, Part};
use packing::Sym;

// A part that begins where another ends: its head, its end and its rank.
#[derive(Clone, Copy)]
pub struct RightPart {
    pub head: Sym,
    pub to: u8,
    pub rank: u8,
}

// Such parts join end to end, the next one last, so there are no more than places.
#[derive(Drop)]
pub struct Pending {
    pub parts: [RightPart; SPLITS],
    pub count: usize,
    ghost few: { count ≤ 32 },
}

impl Pending {
    ghost use Rattle.std.specs.Prelude.{◌≡◌, ℕ, ◌<◌, [], ◌∷◌, length};
    ghost use Rattle.chart_trace.specs.RightParts.{pending, right_part_of, popped, left_pending};

    #[tactic(auto, unfolding(crate::specs::RightParts::backwards))]
    pub fn new() -> Pending
        ensures { pending result ≡ [] }
    {
        let none = RightPart {
            head: Sym(0),
            to: 0,
            rank: 0,
        };
        Pending {
            parts: [none; SPLITS],
            count: 0,
        }
    }

    pub fn push(&mut self, head: Sym, to: usize, rank: usize)
        requires { (length (pending self.old) < 32) × (to ≤ 31) × (rank < 256) }
        ensures { pending self.new ≡ right_part_of head to rank ∷ pending self.old }
    {
        self.parts[self.count] = RightPart {
            head,
            to: to as u8,
            rank: rank as u8,
        };
        self.count += 1;
    }

    // The next part, which begins at a place.
    pub fn pop(&mut self, from: usize) -> Option<Part>
        ensures { (result ≡ popped from (pending self.old)) × (pending self.new ≡ left_pending (pending self.old)) }
    {
        if self.count == 0 {
            return None;
        }
        self.count -= 1;
        let RightPart { head, to, rank } = self.parts[self.count];
        let cell = Cell {
            head,
            from,
            to: to as usize,
        };
        Some(Part {
            cell,
            rank: rank as usize,
        })
    }
}
