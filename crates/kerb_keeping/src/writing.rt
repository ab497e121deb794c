// A kerb's outline written into lent bytes: counted, held against the room, filled in, with zeros up to an old end.
ghost use Rattle.std.specs.Prelude.{◌≡◌, [], ◌≤◌, length};
ghost use Rattle.kerb.specs.Kerbs.{kerb_edges};
ghost use Rattle.kerb_paths.specs.Points.{kerb_path};
ghost use Rattle.outline.specs.Outlines.{outline_bytes};
ghost use Rattle.outline.specs.declared.Form.TheVariants.{Kerb};
ghost use Rattle.kerb_outline.specs.Remaining.{piece_numbers};
ghost use Rattle.keeping.specs.Rewriting.{Writes, Rewrites};

use crate::filling::KerbPlan;
use keeping::rewriting::{Outlined, rewrite, write};
use kerb_paths::pieces::kerb_edges;
use outline::Form;
use replies::Refusal;

impl KerbPlan<'_> {
    // How many edges the kerb has: the tour over a few numbers of scratch counts.
    pub fn count(&self) -> usize
        ensures { result ≡ length (kerb_edges self.now.grade self.now.style (kerb_path self.now.style.radius self.now.points.now)) }
    {
        let mut scratch = [0i32; 4];
        kerb_edges(self.points, self.n, self.grade, self.style, &mut scratch) / 4
    }

    // The outline, of m edges, none too, over lent bytes that hold it and in which an old one ends at `old`.
    pub fn write(&self, m: usize, old: usize, own: &mut [i32], s: &mut [u8]) -> usize
        requires room { piece_numbers ≤ length own.old }
        requires edges { m ≡ length (kerb_edges self.now.grade self.now.style (kerb_path self.now.style.radius self.now.points.now)) }
        requires fits { (length (outline_bytes (Kerb self.now.style) self.now.grade [] (kerb_path self.now.style.radius self.now.points.now)) ≤ length s.old) × (old ≤ length s.old) }
        ensures { Writes s.old (outline_bytes (Kerb self.now.style) self.now.grade [] (kerb_path self.now.style.radius self.now.points.now)) old result s.new }
    {
        write(self, m, old, own, s)
    }

    // The outline over lent bytes in which an old one ends at `old`, where it has edges and there is room.
    pub fn rewrite(&self, old: usize, own: &mut [i32], s: &mut [u8]) -> Result<usize, Refusal>
        requires { (piece_numbers ≤ length own.old) × (old ≤ length s.old) }
        ensures { Rewrites s.old (Kerb self.now.style) self.now.grade [] (kerb_path self.now.style.radius self.now.points.now) old result s.new }
    {
        rewrite(self, old, own, s)
    }
}

impl Outlined for KerbPlan<'_> {
    ghost form_of = { λ p. Kerb p.style };

    ghost grade_of = { λ p. p.grade };

    ghost posts_of = { λ _. [] };

    ghost vertices_of = { λ p. kerb_path p.style.radius p.points.now };

    ghost needs = { λ _. piece_numbers };

    fn form(&self) -> Form {
        Form::Kerb(self.style)
    }

    fn vertices(&self) -> usize {
        self.n
    }

    fn edges(&self) -> usize {
        self.count()
    }

    fn fill_in(&self, m: usize, own: &mut [i32], s: &mut [u8]) -> usize {
        self.outline(m, own, s)
    }
}
