// Chains, and the walk over a path; follows src/mesh/int/variable_stroke/builder.rs.
ghost use Rattle.std.specs.Prelude.{◌≡◌, true};
ghost use Rattle.runs.specs.Runs.{Runs, Room, put};
ghost use Rattle.plane.specs.Directions.{UnitLong};
ghost use Rattle.turning.specs.Edges.{edge_numbers};
ghost use Rattle.folds.specs.Pens.{Lays};
ghost use Rattle.contacts.specs.Contacts.{kind_of};
ghost use Rattle.variable_stroke.specs.Chains.{fresh_of, both_butt, lone_of, finish_of, meet_last, drawn_of, break_end, break_start, leave_edges, emitted_of, start_of};
ghost use Rattle.contacts.specs.Bounds.{Inside, Around};
ghost use Rattle.variable_stroke.specs.Bounds.{AroundChain, AroundWalk};
ghost use Rattle.variable_stroke.specs.Steps.{Finishes, Starts, Extends, Marks, Leaves, Strides, Walks};
ghost use Rattle.contacts.specs.declared.Kind.TheVariants.{Broken, Drawn, Thin};

use crate::{Chain, Walk};
use arc::circle::circle;
use contacts::math::{centre, kind};
use contacts::sections::{covered, section};
use contacts::{Kind, Section, Vertex};
use folds::Pen;
use joins::Cap;
use joins::builder_join::{end_cap, join, start_cap};
use plane::Vector;
use turning::edges::edge;

// A chain, and where the output has come to.
#[derive(Clone, Copy)]
pub struct Stepped {
    pub chain: Chain,
    pub at: usize,
}

// A walk, and where the output has come to.
#[derive(Clone, Copy)]
pub struct Walked {
    pub walk: Walk,
    pub at: usize,
}

// A chain that a covered vertex may have ended, the closing cap, and where the output has come to.
#[derive(Clone, Copy)]
pub struct Left {
    pub chain: Chain,
    pub closing: Cap,
    pub at: usize,
}

// Whether both caps of a chain are straight.
fn both_butt(start: Cap, end: Cap) -> bool
    ensures { result ≡ both_butt start end }
{
    start == Cap::Butt && end == Cap::Butt
}

impl Chain {
    // A chain that starts at a vertex.
    pub fn new(v: Vertex, cap: Cap) -> Chain
        ensures { result ≡ fresh_of v cap }
    {
        Chain {
            start: v,
            cap,
            last: None,
            mark: false,
        }
    }

    // The circle of a vertex that no step was made from.
    fn lone(self, out: &mut [i32], at: usize, pen: Pen, cap: Cap) -> usize
        requires unit_long { UnitLong pen.step × AroundChain self }
        requires room { Room edge_numbers at (lone_of pen.step self cap) }
        ensures { Lays pen.step pen.folds out.old at (lone_of pen.step self cap) out.new result }
    {
        if self.mark || both_butt(self.cap, cap) {
            at
        } else {
            circle(out, at, pen, centre(self.start), self.start.radius)
        }
    }

    // What ends the chain.
    fn end(self, out: &mut [i32], at: usize, pen: Pen, cap: Cap) -> usize
        requires unit_long { UnitLong pen.step × AroundChain self }
        requires room { Room edge_numbers at (finish_of pen.step self cap) }
        ensures { Lays pen.step pen.folds out.old at (finish_of pen.step self cap) out.new result }
    {
        match self.last {
            Some(s) => end_cap(out, at, pen, s, cap),
            None => self.lone(out, at, pen, cap),
        }
    }

    // The chain ended with a cap; it is handed back as it is, to be started anew. The match is for the compiler: with one call of `end` it moves `end` in here
    // and leaves this a call of its own, and circles at grade 1 took a third longer.
    pub fn finish(mut self, out: &mut [i32], at: usize, pen: Pen, cap: Cap) -> Stepped
        requires unit_long { UnitLong pen.step × AroundChain self }
        requires room { Room edge_numbers at (finish_of pen.step self cap) }
        ensures { Finishes out.old at pen self cap out.new result }
    {
        match cap {
            Cap::Round => {
                let at = self.end(out, at, pen, Cap::Round);
                Stepped { chain: self, at }
            }
            Cap::Butt => {
                let at = self.end(out, at, pen, Cap::Butt);
                Stepped { chain: self, at }
            }
        }
    }

    // The chain started anew at a vertex, with a cap.
    pub fn start(mut self, at: usize, v: Vertex, cap: Cap) -> Stepped
        ensures { Starts at v cap result }
    {
        self = Chain::new(v, cap);
        Stepped { chain: self, at }
    }

    // A join to the last section, or the start cap.
    fn meet(self, out: &mut [i32], at: usize, pen: Pen, s: Section) -> usize
        requires unit_long { UnitLong pen.step × AroundChain self × Around s }
        requires room { Room edge_numbers at (meet_last pen.step self.last self.cap s) }
        ensures { Lays pen.step pen.folds out.old at (meet_last pen.step self.last self.cap s) out.new result }
    {
        match self.last {
            Some(prev) => join(out, at, pen, prev, s),
            None => start_cap(out, at, pen, s, self.cap),
        }
    }

    // The edges of a drawn step.
    fn drawn(self, out: &mut [i32], at: usize, pen: Pen, s: Section) -> usize
        requires unit_long { UnitLong pen.step × AroundChain self × Around s }
        requires room { Room edge_numbers at (drawn_of pen.step self s) }
        ensures { Lays pen.step pen.folds out.old at (drawn_of pen.step self s) out.new result }
    {
        let n = edge(out, at, s.left.b, s.left.a);
        let m = edge(out, n, s.right.a, s.right.b);
        self.meet(out, m, pen, s)
    }

    // A drawn step made: the mark is set, and its section becomes the last.
    pub fn step(mut self, out: &mut [i32], at: usize, pen: Pen, s: Section) -> Stepped
        requires unit_long { UnitLong pen.step × AroundChain self × Around s }
        requires room { Room edge_numbers at (drawn_of pen.step self s) }
        ensures { Extends out.old at pen self s out.new result }
    {
        let at = self.drawn(out, at, pen, s);
        self.last = Some(s);
        self.mark = true;
        Stepped { chain: self, at }
    }

    // A thin step made: the mark is set, the last section stays, and nothing is drawn.
    pub fn thin(mut self, at: usize) -> Stepped
        ensures { Marks at self result }
    {
        self.mark = true;
        Stepped { chain: self, at }
    }
}

// The cap that ends a chain where a step breaks it.
fn break_end(a: Vertex, b: Vertex) -> Cap
    ensures { result ≡ break_end a b }
{
    if b.radius <= a.radius {
        Cap::Round
    } else {
        Cap::Butt
    }
}

// The cap that the next chain starts with.
fn break_start(a: Vertex, b: Vertex) -> Cap
    ensures { result ≡ break_start a b }
{
    if b.radius <= a.radius {
        Cap::Butt
    } else {
        Cap::Round
    }
}

impl Walk {
    // The walk at the first vertex of a path.
    pub fn new(v: Vertex) -> Walk
        ensures { result ≡ start_of v }
    {
        Walk {
            at: v,
            chain: Chain::new(v, Cap::Round),
            previous: None,
            closing: Cap::Round,
        }
    }

    // A step that breaks the chain: it ends, and one starts at b.
    fn broken(self, out: &mut [i32], at: usize, pen: Pen, b: Vertex) -> Walked
        requires unit_long { UnitLong pen.step × AroundWalk self × Inside b × (kind_of self.at b ≡ Broken) }
        requires room { Room edge_numbers at (emitted_of pen.step self b) }
        ensures { Strides out.old at pen self b out.new result }
    {
        let ended = self.chain.finish(out, at, pen, break_end(self.at, b));
        let begun = ended.chain.start(ended.at, b, break_start(self.at, b));
        Walked {
            walk: Walk {
                at: b,
                chain: begun.chain,
                previous: None,
                closing: Cap::Round,
            },
            at: begun.at,
        }
    }

    // Where the previous section covers b the chain ends, and one starts at the vertex before.
    fn leave(self, out: &mut [i32], at: usize, pen: Pen, b: Vertex) -> Left
        requires unit_long { UnitLong pen.step × AroundWalk self × Inside b }
        requires room { Room edge_numbers at (leave_edges pen.step self b) }
        ensures { Leaves out.old at pen self b out.new result }
    {
        if covered(self.previous, b) {
            let ended = self.chain.finish(out, at, pen, Cap::Round);
            let begun = ended.chain.start(ended.at, self.at, Cap::Butt);
            Left {
                chain: begun.chain,
                closing: Cap::Butt,
                at: begun.at,
            }
        } else {
            Left {
                chain: self.chain,
                closing: Cap::Round,
                at,
            }
        }
    }

    // A drawn step.
    fn drawn(self, out: &mut [i32], at: usize, pen: Pen, b: Vertex) -> Walked
        requires unit_long { UnitLong pen.step × AroundWalk self × Inside b × (kind_of self.at b ≡ Drawn) }
        requires room { Room edge_numbers at (emitted_of pen.step self b) }
        ensures { Strides out.old at pen self b out.new result }
    {
        let left = self.leave(out, at, pen, b);
        let s = section(self.at, b);
        let stepped = left.chain.step(out, left.at, pen, s);
        Walked {
            walk: Walk {
                at: b,
                chain: stepped.chain,
                previous: Some(s),
                closing: left.closing,
            },
            at: stepped.at,
        }
    }

    // A thin step: nothing is drawn, and the last section stays.
    fn thin(self, out: &mut [i32], at: usize, pen: Pen, b: Vertex) -> Walked
        requires unit_long { UnitLong pen.step × AroundWalk self × Inside b × (kind_of self.at b ≡ Thin) }
        requires room { Room edge_numbers at (emitted_of pen.step self b) }
        ensures { Strides out.old at pen self b out.new result }
    {
        let left = self.leave(out, at, pen, b);
        let stepped = left.chain.thin(left.at);
        Walked {
            walk: Walk {
                at: b,
                chain: stepped.chain,
                previous: None,
                closing: left.closing,
            },
            at: stepped.at,
        }
    }

    // The step to the next vertex, with a pen.
    pub fn stride(self, out: &mut [i32], at: usize, pen: Pen, b: Vertex) -> Walked
        requires unit_long { UnitLong pen.step × AroundWalk self × Inside b }
        requires room { Room edge_numbers at (emitted_of pen.step self b) }
        ensures { Strides out.old at pen self b out.new result }
    {
        match kind(self.at, b) {
            Kind::Broken => self.broken(out, at, pen, b),
            Kind::Drawn => self.drawn(out, at, pen, b),
            Kind::Thin => self.thin(out, at, pen, b),
        }
    }

    // The step to the next vertex, edge by edge.
    pub fn step(self, out: &mut [i32], at: usize, t: Vector, b: Vertex) -> Walked
        requires unit_long { UnitLong t × AroundWalk self × Inside b }
        requires room { Room edge_numbers at (emitted_of t self b) }
        ensures { Walks out.old at t self b out.new result }
    {
        let pen = Pen {
            step: t,
            folds: false,
        };
        self.stride(out, at, pen, b)
    }

    // The closing body.
    pub fn close(self, out: &mut [i32], at: usize, t: Vector) -> usize
        requires unit_long { UnitLong t × AroundWalk self }
        requires room { Room edge_numbers at (finish_of t self.chain self.closing) }
        ensures { Runs put edge_numbers out.old at (finish_of t self.chain self.closing) out.new result }
    {
        let pen = Pen {
            step: t,
            folds: false,
        };
        self.chain.finish(out, at, pen, self.closing).at
    }
}
