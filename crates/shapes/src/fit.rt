// Types as bytes: 0 null, 1 int32, 2 int64, 3 F, 32+row a class.

ghost use Rattle.std.specs.Prelude.{◌≡◌, List, ℕ, ◌<◌};
ghost use Rattle.model.specs.Tables.{Ty, class, byte_of};
ghost use Rattle.model.specs.Operators.{fits};
ghost use Rattle.ancestor.specs.Parents.{Parents};

use super::numbers::{CLASS, NULL};
use ancestor::descends;

// The byte of a class.
pub fn class_byte(row: u8) -> u8
    ensures { row < 224 → result ≡ byte_of (class row) }
{
    row.wrapping_add(CLASS)
}

// Whether a value of type t fits type u.
pub fn fits(parents: &[u8; 33], t: u8, u: u8) -> bool
    ensures { (ps : List ℕ) (A B : Ty) → Parents ps parents.now → byte_of A ≡ t → byte_of B ≡ u → result ≡ fits ps A B }
{
    if t == u {
        return true;
    }
    if u < CLASS {
        return false;
    }
    if t == NULL {
        return true;
    }
    if t < CLASS {
        return false;
    }
    descends(parents, (t - CLASS) as usize, (u - CLASS) as usize)
}
