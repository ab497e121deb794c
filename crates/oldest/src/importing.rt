// import: the floats of the oldest chunks into lent whole numbers.
ghost use Rattle.oldest.specs.Calls.{coordinate_in, radius_in};
ghost use Rattle.oldest.specs.Answers.{Imports};

use crate::OldVertex;
use crate::lent::{Lent, pass};
use crate::putting::put_three;
use crate::taking::vertex_taken;
use replies::Refusal;

impl Lent for f32 {
    type Other = i32;

    ghost coordinate = { coordinate_in };

    ghost width = { radius_in };

    fn vertex(numbers: &[f32], at: usize, out: &mut [i32]) -> Result<(), usize> {
        let v = OldVertex {
            x: numbers[at],
            y: numbers[at + 1],
            width: numbers[at + 2],
        };
        match vertex_taken(v) {
            Err(not) => Err(at + not.place),
            Ok(whole) => {
                put_three(out, at, whole.x, whole.y, whole.radius);
                Ok(())
            }
        }
    }
}

// The floats of the oldest chunks, three a vertex, as whole numbers, three a vertex.
pub fn import(floats: &[f32], out: &mut [i32]) -> Result<usize, Refusal>
    ensures { Imports floats.now out.old result out.new }
{
    pass(floats, out)
}
