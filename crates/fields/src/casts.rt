// castclass and isinst.
ghost use Rattle.std.specs.Prelude.{◌≡◌, ◌≤◌, ◌<◌, length, get_or};
ghost use Rattle.model.specs.Answer.{pick};
ghost use Rattle.state.specs.View.{Work};
ghost use Rattle.state.specs.Work.{Tables, acts_w};
ghost use Rattle.state.specs.Meets.{Stays, Topped, Placed, on_stack};
ghost use Rattle.state.specs.Steps.{Own, ComesTo};

use crate::members::SIZE;
use crate::named::{CLASS_KIND, row_after};
use state::ending::{Ending, ends};
use state::fit::refers;
use state::{Stay, Step};

// A reference stays where it is null or of a class that descends from the token's; else isinst puts null in its place, and castclass ends the run.
pub fn cast(
    isinst: bool,
    y: Stay,
    part: &[u8],
    at: usize,
    sp: usize,
    cells: &mut [u64; 2048],
    kinds: &[u8; 2048],
    classes: &[u8; 256],
    ancestors: &[u64; 33],
    count: usize,
) -> Step
    requires stays { Stays y }
    requires topped { Topped y sp }
    requires at_range { (at < length part.now) × (at ≤ 1024) × (count ≤ 32) }
    requires get_or_is { get_or part.now at 0 ≡ pick isinst 0x75 0x74 }
    requires placed { Placed classes.now }
    ensures own { Own y sp result }
    ensures meets { ((P : Tables) (c : Work) → P.class_count ≡ count → P.ancestors ≡ ancestors.now → c.classes ≡ classes.now →
        let before = on_stack c at sp cells.old kinds.now in
        ComesTo result (on_stack c at sp cells.new kinds.now) before (acts_w P part.now y before)) }
{
    let row = match row_after(part, at, CLASS_KIND, count) {
        Ok(row) => row,
        Err(e) => return ends(e),
    };
    if sp <= y.floor {
        return ends(Ending::TooFew);
    }
    if kinds[sp - 1] != 0 {
        return ends(Ending::WrongType);
    }
    if refers(classes, ancestors, cells[sp - 1], row as u8) {
        return Step::On {
            at: at + SIZE,
            sp: sp,
        };
    }
    if isinst {
        cells[sp - 1] = 0;
        return Step::On {
            at: at + SIZE,
            sp: sp,
        };
    }
    ends(Ending::InvalidCast)
}
