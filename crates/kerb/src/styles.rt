// A style in three numbers, as it is lent and kept.
ghost use Rattle.std.specs.Prelude.{◌≡◌};
ghost use Rattle.kerb.specs.Styles.{join_numbered, style_of};

use crate::{Join, Style};

// 0 is a bevel, any other number a round corner.
impl From<u32> for Join {
    ghost from_gives = { λ n r. r ≡ join_numbered n };

    fn from(join: u32) -> Join {
        if join == 0 { Join::Bevel } else { Join::Round }
    }
}

// A style, by its numbers.
pub fn style_of(radius: u32, join: u32, closed: u32) -> Style
    ensures { result ≡ style_of radius join closed }
{
    Style {
        radius: i64::from(radius),
        join: Join::from(join),
        closed: closed == 1,
    }
}
