// The rows of a store of which only header and vertices are read.
ghost use Rattle.std.specs.Prelude.{◌≡◌, [], ◌∷◌, ◌≤◌, length};
ghost use Rattle.outline.specs.Stores.{kind_in, grade_in, count_in};
ghost use Rattle.replies.specs.Replies.{grade_row, count_row};
ghost use Rattle.salvaging.specs.Salvaging.{cut_row, front_rows};
ghost use Rattle.salvaging.specs.FrontChecks.{RowsTell};

use differences::fronts::Front;
use outline::layout::{FIRST_EDITION, KERB_KIND, LEAST, SECOND_EDITION};
use outline::{Edition, Form};
use replies::Refusal;
use words::word_at;

// Grade, vertices, and bytes enough for the table.
fn table_rows(s: &[u8]) -> Result<Front<'_>, Refusal>
    requires { (24 ≤ length s.now) × (kind_in s.now ≡ 0) }
    ensures { RowsTell s.now (grade_row (grade_in s.now) ∷ count_row (count_in s.now) ∷ cut_row s.now ∷ []) result }
{
    let grade = word_at(s, 2);
    if grade < 1 || 8 < grade {
        return Err(Refusal::Grade(grade));
    }
    let n = word_at(s, 3) as usize;
    if 4096 < n {
        return Err(Refusal::TooMany(n));
    }
    let edition = Edition::of(word_at(s, 0));
    let end = Form::Stroke(edition).front(n);
    if s.len() < end {
        return Err(Refusal::NotOutline);
    }
    Ok(Front {
        store: s,
        edition,
        grade,
        n,
    })
}

// Edition and kind, and what follows.
pub fn front_rows(s: &[u8]) -> Result<Front<'_>, Refusal>
    ensures { RowsTell s.now (front_rows s.now) result }
{
    if s.len() < LEAST {
        return Err(Refusal::NotOutline);
    }
    let edition = word_at(s, 0);
    if edition < FIRST_EDITION || SECOND_EDITION < edition {
        return Err(Refusal::NotOutline);
    }
    let kind = word_at(s, 1);
    if KERB_KIND < kind {
        return Err(Refusal::Kind(kind));
    }
    if kind == KERB_KIND {
        return Err(Refusal::OtherKind(kind));
    }
    table_rows(s)
}
