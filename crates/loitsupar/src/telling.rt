// The shape that the check found, over tables and code: a refusal of loading and a fault of the check are passed on.
ghost use Rattle.std.specs.Prelude.{◌≡◌};
ghost use Rattle.model.specs.Check.{shape_found};
ghost use Rattle.loitsupar.specs.Public.{told_of};

use checker::tell::Found;
use loaded::{Fault, Loaded};
use loader::load_into;

// The depth and the types before the instruction at an offset of the method at a row; none where no instruction starts there.
pub fn tell(tables: &[u8], code: &[u8], row: usize, offset: usize) -> Result<Option<Found>, Fault>
    ensures { result ≡ told_of (shape_found tables.now code.now row offset) }
{
    let mut loaded = Loaded::default();
    load_into(tables, code, &mut loaded)?;
    checker::check(&loaded, code)?;
    Ok(checker::tell::tell(&loaded, code, row, offset))
}
