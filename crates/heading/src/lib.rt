// A store's header: its rows, and the vertices after it as numbers.
#![tactic(auto)]

ghost use Rattle.heading.specs.Headers.{StrokeAlone};

use outline::layout::KERB_KIND;
use outline::{Edition, Form};
use replies::Refusal;

pub mod heads;
pub mod shows;

// What a store's header says: form, grade, vertices and edges.
#[derive(Clone, Copy)]
pub struct Header {
    pub form: Form,
    pub grade: u32,
    pub n: usize,
    pub m: usize,
}

impl Header {
    // The edition, for a call that takes strokes alone.
    pub fn stroke_edition(self) -> Result<Edition, Refusal>
        ensures { StrokeAlone self.form result }
    {
        match self.form {
            Form::Stroke(edition) => Ok(edition),
            Form::Kerb(_) => Err(Refusal::OtherKind(KERB_KIND)),
        }
    }
}
