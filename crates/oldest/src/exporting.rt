// export: whole numbers back to the floats of the oldest chunks.
ghost use Rattle.oldest.specs.Calls.{coordinate_out, width_out};
ghost use Rattle.oldest.specs.Answers.{Exports};

use crate::lent::{Lent, pass};
use crate::putting::put_three;
use crate::writing::{coordinate_back, width_back};
use replies::Refusal;

impl Lent for i32 {
    type Other = f32;

    ghost coordinate = { coordinate_out };

    ghost width = { width_out };

    fn vertex(numbers: &[i32], at: usize, out: &mut [f32]) -> Result<(), usize> {
        let Ok(x) = coordinate_back(numbers[at]) else {
            return Err(at);
        };
        let Ok(y) = coordinate_back(numbers[at + 1]) else {
            return Err(at + 1);
        };
        let Ok(width) = width_back(numbers[at + 2]) else {
            return Err(at + 2);
        };
        put_three(out, at, x, y, width);
        Ok(())
    }
}

// Whole numbers, three a vertex, as the floats of the oldest chunks.
pub fn export(numbers: &[i32], out: &mut [f32]) -> Result<usize, Refusal>
    ensures { Exports numbers.now out.old result out.new }
{
    pass(numbers, out)
}
