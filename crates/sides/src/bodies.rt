// Where the table of a sheet says that a body stands.
ghost use Rattle.std.specs.Prelude.{◌≡◌, ◌≤◌};
ghost use Rattle.outline.specs.Stores.{edition_in, edition_of, edges_in, edges_before};
ghost use Rattle.sides.specs.Sides.{BodiesInside, LocatesIn};

use crate::Located;
use outline::layout::{EDGE, HEADER_WORDS};
use outline::{Edition, Form};
use replies::Refusal;
use words::word_at;

// A stroke's store that marks off its bodies: its bytes, its edition and its vertices by number.
#[derive(Clone, Copy)]
pub struct Marked<'a> {
    pub bytes: &'a [u8],
    pub edition: Edition,
    pub n: usize,
    ghost inside: { BodiesInside bytes.now n },
    ghost of_edition: { edition ≡ edition_of (edition_in bytes.now) },
}

impl Marked<'_> {
    // How many edges body i has: the last word of its vertex's entry, and of the closing body the word past the entries.
    fn edges_in(&self, i: usize) -> usize
        ensures { result ≡ edges_in self.now.bytes.now i }
    {
        let wide = self.edition.entry_words();
        if i < self.n {
            let entry = HEADER_WORDS + wide * i;
            let last = entry + (wide - 1);
            return word_at(self.bytes, last) as usize;
        }
        let closing = HEADER_WORDS + wide * self.n;
        word_at(self.bytes, closing) as usize
    }

    // How many edges the bodies before body i have.
    fn edges_before(&self, i: usize) -> usize
        requires { i ≤ self.now.n }
        ensures { result ≡ edges_before self.now.bytes.now i }
    {
        let mut sum: usize = 0;
        for k in 0..i {
            sum += self.edges_in(k);
        }
        sum
    }

    // Body i; the closing body is body n.
    pub fn body(&self, i: usize) -> Result<Located, Refusal>
        ensures { LocatesIn self.now.bytes.now i result }
    {
        if self.n < i {
            return Err(Refusal::NoVertex(i));
        }
        let before = self.edges_before(i);
        let edges = self.edges_in(i);
        let base = Form::Stroke(self.edition).front(self.n);
        let offset = base + EDGE * before;
        Ok(Located { offset, edges })
    }
}
