// The check over tables and code: it loads first and passes a refusal on.
ghost use Rattle.std.specs.Prelude.{◌≡◌};
ghost use Rattle.model.specs.Check.{check as check_of};
ghost use Rattle.loitsupar.specs.Public.{checked};

use loaded::{Fault, Loaded};
use loader::load_into;

// Loads the tables and checks every method, up to the first fault in the written order. A refusal of loading is a fault of method 0 at its place.
pub fn check(tables: &[u8], code: &[u8]) -> Result<(), Fault>
    ensures { result ≡ checked (check_of tables.now code.now) }
{
    let mut loaded = Loaded::default();
    match load_into(tables, code, &mut loaded) {
        Ok(()) => checker::check(&loaded, code),
        Err(refusal) => Err(refusal),
    }
}
