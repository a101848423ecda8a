// Ranges that records of several kinds share: rows and types.
ghost use Rattle.std.specs.Prelude.{◌≡◌};
ghost use Rattle.model.specs.Loading.{within as within_of};
ghost use Rattle.loader.specs.Allowed.{is_type};

use crate::numbers;

// Whether there is a row of that number.
#[tactic(auto, unfolding(model::specs::Loading::within))]
pub fn is_row(rows: usize, r: u8) -> bool
    ensures { result ≡ within_of 1 rows r }
{
    1 <= r && r as usize <= rows
}

// Whether a byte declares a type.
pub fn type_fits(classes: usize, t: u8) -> bool
    ensures { result ≡ is_type classes t }
{
    if t == numbers::INT32 {
        return true;
    }
    if t == numbers::INT64 {
        return true;
    }
    if t == numbers::F {
        return true;
    }
    if t <= numbers::OBJECT {
        return false;
    }
    (t - numbers::OBJECT) as usize <= classes
}
