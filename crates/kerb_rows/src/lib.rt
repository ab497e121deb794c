// The rows that drawing and keeping a kerb share: are these points, a grade, a style and vertices within the limits?
#![tactic(auto)]

ghost use Rattle.std.specs.Prelude.{◌≡◌};
ghost use Rattle.kerb.specs.Styles.{style_of};
ghost use Rattle.kerb_rows.specs.KerbRows.{KerbSays};

use kerb::Style;
use kerb::styles::style_of;
use kerb_paths::points::first_outside;
use replies::Refusal;
use replies::style_rows::style_fault;

// A kerb as it is lent: its points, two numbers each, a grade, and the three numbers of its style.
#[derive(Clone, Copy)]
pub struct LentKerb<'a> {
    pub points: &'a [i32],
    pub grade: u32,
    pub radius: u32,
    pub join: u32,
    pub closed: u32,
}

impl LentKerb<'_> {
    // Its style.
    pub fn style(&self) -> Style
        ensures { result ≡ style_of self.now.radius self.now.join self.now.closed }
    {
        style_of(self.radius, self.join, self.closed)
    }

    // Every row of a kerb, in order: how many points it has, or why it is refused.
    pub fn check(&self) -> Result<usize, Refusal>
        ensures { KerbSays self.now.points.now self.now.grade self.now.radius self.now.join self.now.closed result }
    {
        let m = self.points.len();
        if m % 2 != 0 {
            return Err(Refusal::Uneven(m));
        }
        if self.grade < 2 {
            return Err(Refusal::Grade(self.grade));
        }
        if 8 < self.grade {
            return Err(Refusal::Grade(self.grade));
        }
        if let Some(place) = style_fault(self.radius, self.join, self.closed) {
            return Err(Refusal::StyleWord(place));
        }
        let n = m / 2;
        if 4096 < n {
            return Err(Refusal::TooMany(n));
        }
        let bad = first_outside(self.points, self.style(), n);
        if bad < n {
            return Err(Refusal::Outside(bad));
        }
        Ok(n)
    }
}
