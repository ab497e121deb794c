// Where the table serves: by the step of grade 8, from due east or due west.
ghost use Rattle.half_turn.specs.Pairs.{Finest, Axial};

use plane::Vector;

// Whether a step is that of grade 8.
pub fn finest(t: Vector) -> bool
    ensures { Finest t result }
{
    t.x == 1073709056 && t.y == 8388480
}

// Whether a direction is due east or due west.
pub fn axial(d: Vector) -> bool
    ensures { Axial d result }
{
    d.y == 0 && (d.x == 0x4000_0000 || d.x == -0x4000_0000)
}
