// A class record: its parent's row.
ghost use Rattle.std.specs.Prelude.{◌≡◌, List, ℕ};
ghost use Rattle.model.specs.Loading.{Loading as LoadingOf, class_record, parent_fits};
ghost use Rattle.loader.specs.Stands.{Stands, Leads};
ghost use Rattle.loader.specs.Kinds.{last_byte};
ghost use Rattle.loader.specs.Allowed.{class_allowed};

use crate::kind::Kind;
use crate::notes::Notes;
use crate::numbers;
use crate::ranges::is_row;
use crate::refusal::Refusal;
use loaded::Loaded;

// Class 1 is Object, parent 0; every other parent is a smaller row, at least 1.
fn parent_fits(classes: usize, p: u8) -> bool
    ensures { result ≡ parent_fits classes p }
{
    if classes == 0 {
        return p == 0;
    }
    is_row(classes, p)
}

// Whether a class record is taken: its place, its parent, room for it.
fn class_allowed(last: Option<Kind>, classes: usize, p: u8) -> Result<(), Refusal>
    ensures { result ≡ class_allowed (last_byte last) classes p }
{
    if !Kind::Class.follows(last) {
        return Err(Refusal::Order);
    }
    if !parent_fits(classes, p) {
        return Err(Refusal::Range);
    }
    if numbers::MOST_CLASSES <= classes {
        return Err(Refusal::TooMany);
    }
    Ok(())
}

pub fn class_record(loaded: &mut Loaded, notes: &mut Notes, p: u8) -> Result<(), Refusal>
    ensures { (code : List ℕ) (L : LoadingOf) → Stands code L loaded.old notes.old
        → Leads code (class_record L p) result loaded.new notes.new }
{
    class_allowed(notes.last, loaded.counts.classes, p)?;
    let row = loaded.counts.classes + 1;
    loaded.parents[row] = p;
    loaded.counts.classes = row;
    notes.last = Some(Kind::Class);
    Ok(())
}
