// One body of a store compared with the edges that are due, its counts, and the header's total.
ghost use Rattle.std.specs.Prelude.{◌≡◌, ◌+◌, ◌*◌, ◌^◌, ◌≤◌, ◌<◌, length};
ghost use Rattle.differences.specs.Differences.{count_number, total_number};
ghost use Rattle.differences.specs.Bodies.{EdgesTold, DifferenceTold, BodiesTold};

use outline::layout::EDGE;
use variable_stroke::Walk;
use words::numbers::same_numbers;

// What differs, as the words of a note: the edge count, the edges, of both the sum; and the header's total. They are bits that a caller in C
// reads, and nothing is 0: an enum would be turned into them at each place.
pub const COUNT_DIFFERS: u32 = 1;

pub const EDGES_DIFFER: u32 = 2;

pub const TOTAL_DIFFERS: u32 = 4;

// Where the walk stands: the walk, where the old edges of the next body begin, how many edges are due so far, and what differs in the last body.
#[derive(Clone, Copy)]
pub struct Differing {
    pub walk: Walk,
    pub at: usize,
    pub edges: usize,
    pub what: u32,
}

// Whether counts differ.
fn count_number(old: usize, due: usize) -> u32
    ensures { result ≡ count_number old due }
{
    if old == due { 0 } else { COUNT_DIFFERS }
}

// Whether the header's total differs.
pub fn total_number(old: usize, due: usize) -> u32
    ensures { result ≡ total_number old due }
{
    if old == due { 0 } else { TOTAL_DIFFERS }
}

// Whether the edges that stand in `own` differ, up to the smaller count, from the old ones, which begin at a byte.
fn edges_number(own: &[i32], due: usize, old: usize, s: &[u8], at: usize) -> u32
    requires { (4 * due ≤ length own.now) × (at + 16 * due < 2 ^ 64) }
    ensures { EdgesTold own.now due old s.now at result }
{
    let few = old.min(due);
    let good = same_numbers(own, 4 * few, s, at, at);
    let end = at + EDGE * few;
    if good < end { EDGES_DIFFER } else { 0 }
}

// What differs in a body whose edges stand in `own`.
pub fn difference(own: &[i32], due: usize, old: usize, s: &[u8], at: usize) -> u32
    requires { (4 * due ≤ length own.now) × (at + 16 * due < 2 ^ 64) }
    ensures { DifferenceTold own.now due old s.now at result }
{
    count_number(old, due) + edges_number(own, due, old, s, at)
}

impl Differing {
    // One body more, whose edges stand in `own`.
    pub fn told(self, next: Walk, due: usize, old: u32, own: &[i32], s: &[u8]) -> Differing
        requires { (4 * due ≤ length own.now) × (due ≤ 9227) × (self.at + 68719476736 < 2 ^ 64) × (self.edges + 9227 < 2 ^ 64) }
        ensures { BodiesTold own.now due s.now self next old result }
    {
        let count = old as usize;
        Differing {
            walk: next,
            at: self.at + EDGE * count,
            edges: self.edges + due,
            what: difference(own, due, count, s, self.at),
        }
    }
}
