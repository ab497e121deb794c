// A tour of a kerb's points, piece by piece; follows src/mesh/int/stroke/builder.rs.
ghost use Rattle.std.specs.Prelude.{◌≡◌, ◌+◌, ◌^◌, ◌<◌};
ghost use Rattle.runs.specs.Runs.{Room};
ghost use Rattle.plane.specs.Directions.{UnitLong};
ghost use Rattle.turning.specs.Edges.{edge_numbers};
ghost use Rattle.folds.specs.Pens.{Lays};
ghost use Rattle.kerb.specs.declared.Phase.TheVariants.{Sides, Corners, Caps};
ghost use Rattle.kerb.specs.Bounds.{Styled, KerbPoint, Clear, Joins, Joining, Closes, Capped};
ghost use Rattle.kerb.specs.Tours.{meet_of, closing_of, caps_of, held_of, tour_from, tour_at_corners, side_edges, meet_edges, sided_of, met_of, ahead_of, emits_in, next_in, done_of, ends_in, Ready, Tours};

use crate::corners::{caps, corner, sides};
use crate::{Phase, Span, Style, Tour};
use contacts::math::centre;
use contacts::sections::section;
use contacts::{Section, Vertex};
use folds::Pen;

// A tour after a piece, and where the output has come to.
#[derive(Clone, Copy)]
pub struct Toured {
    pub tour: Tour,
    pub at: usize,
}

// The corner from the last section to s, if there is one.
fn meet(out: &mut [i32], at: usize, pen: Pen, y: Style, span: Option<Span>, s: Section) -> usize
    requires unit_long { UnitLong pen.step × Styled y × Joins span s × Clear s }
    requires room { Room edge_numbers at (meet_of pen.step y span s) }
    ensures { Lays pen.step pen.folds out.old at (meet_of pen.step y span s) out.new result }
{
    match span {
        Some(span) => corner(out, at, pen, y, span.last, s),
        None => at,
    }
}

// The sections so far, and s.
fn held(span: Option<Span>, s: Section) -> Option<Span>
    ensures { result ≡ held_of span s }
{
    match span {
        Some(span) => Some(Span { last: s, ..span }),
        None => Some(Span { first: s, last: s }),
    }
}

// The corner from the last section to the first, if the kerb closes.
fn closing(out: &mut [i32], at: usize, pen: Pen, y: Style, span: Option<Span>) -> usize
    requires unit_long { UnitLong pen.step × Styled y × Closes y span }
    requires room { Room edge_numbers at (closing_of pen.step y span) }
    ensures { Lays pen.step pen.folds out.old at (closing_of pen.step y span) out.new result }
{
    match span {
        Some(span) => {
            if y.closed {
                corner(out, at, pen, y, span.last, span.first)
            } else {
                at
            }
        },
        None => at,
    }
}

// Both caps, if it does not.
fn capping(out: &mut [i32], at: usize, pen: Pen, y: Style, span: Option<Span>) -> usize
    requires capped { Capped span }
    requires room { Room edge_numbers at (caps_of y span) }
    ensures { Lays pen.step pen.folds out.old at (caps_of y span) out.new result }
{
    match span {
        Some(span) => {
            if y.closed {
                at
            } else {
                caps(out, at, span.first, span.last)
            }
        },
        None => at,
    }
}

impl Tour {
    // A tour from its first point.
    pub fn new(v: Vertex) -> Tour
        ensures { result ≡ tour_from v }
    {
        Tour {
            phase: Phase::Sides,
            next: 0,
            at: v,
            span: None,
        }
    }

    // The same tour, now for the corners.
    fn at_corners(v: Vertex) -> Tour
        ensures { result ≡ tour_at_corners v }
    {
        Tour {
            phase: Phase::Corners,
            next: 0,
            at: v,
            span: None,
        }
    }

    // One point on, for the sides.
    fn side(self, out: &mut [i32], at: usize, pen: Pen, y: Style, b: Vertex) -> Toured
        requires styled { Styled y × KerbPoint y self.at × KerbPoint y b × (self.next + 1 < 2 ^ 64) }
        requires room { Room edge_numbers at (side_edges self.at b) }
        ensures { Tours out.old at pen (sided_of self b) (side_edges self.at b) out.new result }
    {
        let next = self.next + 1;
        if centre(self.at) == centre(b) {
            Toured {
                tour: Tour {
                    phase: Phase::Sides,
                    next,
                    ..self
                },
                at,
            }
        } else {
            let n = sides(out, at, section(self.at, b));
            Toured {
                tour: Tour {
                    phase: Phase::Sides,
                    next,
                    at: b,
                    ..self
                },
                at: n,
            }
        }
    }

    // One point on, for the corners.
    fn corner(self, out: &mut [i32], at: usize, pen: Pen, y: Style, b: Vertex) -> Toured
        requires unit_long { UnitLong pen.step × Styled y × KerbPoint y self.at × KerbPoint y b × (self.next + 1 < 2 ^ 64) × Joining self.at self.span }
        requires room { Room edge_numbers at (meet_edges pen.step y self.span self.at b) }
        ensures { Tours out.old at pen (met_of self b) (meet_edges pen.step y self.span self.at b) out.new result }
    {
        let next = self.next + 1;
        if centre(self.at) == centre(b) {
            Toured {
                tour: Tour {
                    phase: Phase::Corners,
                    next,
                    ..self
                },
                at,
            }
        } else {
            let s = section(self.at, b);
            let n = meet(out, at, pen, y, self.span, s);
            Toured {
                tour: Tour {
                    phase: Phase::Corners,
                    next,
                    at: b,
                    span: held(self.span, s),
                },
                at: n,
            }
        }
    }

    // A piece of the sides: one point on, or the corners next.
    fn side_step(
        self,
        out: &mut [i32],
        at: usize,
        pen: Pen,
        y: Style,
        first: Vertex,
        more: bool,
        b: Vertex,
    ) -> Toured
        requires styled { Styled y × Ready y first self more b × (self.phase ≡ Sides) }
        requires room { Room edge_numbers at (emits_in Sides pen.step y (ahead_of more b) self) }
        ensures { Tours out.old at pen (next_in Sides first (ahead_of more b) self) (emits_in Sides pen.step y (ahead_of more b) self) out.new result }
    {
        if more {
            self.side(out, at, pen, y, b)
        } else {
            Toured {
                tour: Tour::at_corners(first),
                at,
            }
        }
    }

    // A piece of the corners: one point on, or the closing corner.
    fn corner_step(
        self,
        out: &mut [i32],
        at: usize,
        pen: Pen,
        y: Style,
        first: Vertex,
        more: bool,
        b: Vertex,
    ) -> Toured
        requires unit_long { UnitLong pen.step × Styled y × Ready y first self more b × (self.phase ≡ Corners) }
        requires room { Room edge_numbers at (emits_in Corners pen.step y (ahead_of more b) self) }
        ensures { Tours out.old at pen (next_in Corners first (ahead_of more b) self) (emits_in Corners pen.step y (ahead_of more b) self) out.new result }
    {
        if more {
            self.corner(out, at, pen, y, b)
        } else {
            let closed_at = closing(out, at, pen, y, self.span);
            Toured {
                tour: Tour {
                    phase: Phase::Caps,
                    ..self
                },
                at: closed_at,
            }
        }
    }

    // The caps.
    fn cap_step(
        self,
        out: &mut [i32],
        at: usize,
        pen: Pen,
        y: Style,
        first: Vertex,
        more: bool,
        b: Vertex,
    ) -> Toured
        requires styled { Styled y × Ready y first self more b × (self.phase ≡ Caps) }
        requires room { Room edge_numbers at (emits_in Caps pen.step y (ahead_of more b) self) }
        ensures { Tours out.old at pen (next_in Caps first (ahead_of more b) self) (emits_in Caps pen.step y (ahead_of more b) self) out.new result }
    {
        Toured {
            tour: Tour {
                phase: Phase::Done,
                ..self
            },
            at: capping(out, at, pen, y, self.span),
        }
    }

    // The next piece: b is the point ahead, if there is more.
    pub fn step(
        self,
        out: &mut [i32],
        at: usize,
        pen: Pen,
        y: Style,
        first: Vertex,
        more: bool,
        b: Vertex,
    ) -> Toured
        requires unit_long { UnitLong pen.step × Styled y × Ready y first self more b }
        requires room { Room edge_numbers at (emits_in self.phase pen.step y (ahead_of more b) self) }
        ensures { Tours out.old at pen (next_in self.phase first (ahead_of more b) self) (emits_in self.phase pen.step y (ahead_of more b) self) out.new result }
    {
        match self.phase {
            Phase::Sides => self.side_step(out, at, pen, y, first, more, b),
            Phase::Corners => self.corner_step(out, at, pen, y, first, more, b),
            Phase::Caps => self.cap_step(out, at, pen, y, first, more, b),
            Phase::Done => Toured { tour: self, at },
        }
    }

    // Whether the next piece is its body's last.
    pub fn ends(self, more: bool) -> bool
        ensures { result ≡ ends_in self.phase more }
    {
        match self.phase {
            Phase::Sides | Phase::Corners => !more,
            Phase::Caps => true,
            Phase::Done => false,
        }
    }

    // Whether every piece is done.
    pub fn done(self) -> bool
        ensures { result ≡ done_of self.phase }
    {
        self.phase == Phase::Done
    }
}
