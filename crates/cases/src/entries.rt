// The entries of lent memory, read from a line.
use lines::token::{Number, Numbers};

// Fills lent numbers or bytes with what a line goes on with; none if it doesn't go on with just these.
pub fn read<E: TryFrom<Number> + Drop>(numbers: &mut Numbers<'_>, memory: &mut [E]) -> Option<()>
where
    E::Error: Drop,
{
    for entry in memory.iter_mut() {
        *entry = E::try_from(numbers.next()?).ok()?;
    }
    numbers.is_done().then_some(())
}
