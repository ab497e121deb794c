// Numbers into lent room, for import and export alike. What does not fit the room is left out.
ghost use Rattle.std.specs.Prelude.{◌≡◌, ◌+◌, ◌≤◌, [], ◌∷◌};
ghost use Rattle.runs.specs.Runs.{over, put};

// A number where there is room for it.
fn put<T: Copy>(out: &mut [T], at: usize, x: T)
    ensures { out.new ≡ put out.old at x }
{
    if at < out.len() {
        out[at] = x;
    }
}

// A vertex's three numbers.
pub fn put_three<T: Copy>(out: &mut [T], at: usize, x: T, y: T, width: T)
    requires { at + 3 ≤ 12288 }
    ensures { out.new ≡ over put out.old at (x ∷ y ∷ width ∷ []) }
{
    put(out, at, x);
    put(out, at + 1, y);
    put(out, at + 2, width);
}
