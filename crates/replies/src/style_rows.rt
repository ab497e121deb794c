// The row of a kerb's style: are radius, join and closed in their ranges?
ghost use Rattle.replies.specs.StyleRows.{style_fault, Faults};

// The header place of the first of radius, join and closed that is outside its range, if one is.
pub fn style_fault(radius: u32, join: u32, closed: u32) -> Option<u32>
    ensures { Faults result (style_fault radius join closed) }
{
    if 268435456 < radius {
        return Some(5);
    }
    if 1 < join {
        return Some(6);
    }
    if 1 < closed {
        return Some(7);
    }
    None
}
