// Where a stay is.
ghost use Rattle.std.specs.Prelude.{◌≡◌, Result};
ghost use Rattle.across_frames.specs.Lent.{stays_in, moved};

use crate::change::Change;
use state::columns::{ON, OVER, START};
use state::ending::Ending;
use state::{Moved, Stay};

// The registers of a stay: the offset of its instruction, one past the stack's top, how many objects are made, and the method's row.
#[derive(Clone, Copy)]
pub struct Registers {
    pub stay: Stay,
    pub at: usize,
    pub sp: usize,
    pub made: usize,
    pub row: usize,
}

impl Registers {
    // A step that ends in its frame, or lets the initialiser `row` come first.
    fn stays(self, how: u8, row: usize) -> Moved
        ensures { result ≡ stays_in self how row }
    {
        Moved {
            how: how,
            at: self.at,
            sp: self.sp,
            fp: self.stay.fp,
            row: row,
            made: self.made,
        }
    }

    // The registers after a step.
    pub fn after(self, step: Result<Change, Ending>) -> Moved
        ensures { result ≡ moved self step }
    {
        match step {
            Ok(Change::Moves(moved)) => Moved { how: ON, ..moved },
            Ok(Change::Over) => self.stays(OVER, self.row),
            Ok(Change::Waits(first)) => self.stays(START, first),
            Err(ending) => self.stays(ending as u8, self.row),
        }
    }
}
