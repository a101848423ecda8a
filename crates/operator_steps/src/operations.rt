// The operators whose number stands in a second byte.
ghost use Rattle.std.specs.Prelude.{◌≡◌, ◌≤◌, ◌<◌, length, get_or};
ghost use Rattle.state.specs.View.{Work};
ghost use Rattle.state.specs.Work.{Tables, acts_w};
ghost use Rattle.state.specs.Meets.{Stays, Topped, Few, on_stack};
ghost use Rattle.state.specs.Steps.{Own, ComesTo};

use code::operands::{byte_after, whole};
use operators::codes::{Binary, Relation};
use operators::stacked::binary;
use state::ending::{Ending, ends};
use state::{Stay, Step};

// ceq, cgt, clt and their .un forms: FE, and a byte that says which.
#[inline(always)]
pub fn compared(
    y: Stay,
    part: &[u8],
    at: usize,
    sp: usize,
    cells: &mut [u64; 2048],
    kinds: &mut [u8; 2048],
) -> Step
    requires stays { Stays y }
    requires topped { Topped y sp }
    requires few { Few 3 kinds.old }
    requires at_range { (at < length part.now) × (length part.now ≤ 1024) }
    ensures own { Own y sp result }
    ensures meets { ((P : Tables) (c : Work) → get_or part.now at 0 ≡ 0xFE →
        let before = on_stack c at sp cells.old kinds.old in
        ComesTo result (on_stack c at sp cells.new kinds.new) before (acts_w P part.now y before)) }
{
    if !whole(part, at, 2) {
        return ends(Ending::Undecodable);
    }
    let next = at + 2;
    match byte_after(part, at) {
        1 => binary(y, at, sp, cells, kinds, Binary::Compare(Relation::Eq), next),
        2 => binary(y, at, sp, cells, kinds, Binary::Compare(Relation::Gt), next),
        3 => binary(
            y,
            at,
            sp,
            cells,
            kinds,
            Binary::Compare(Relation::GtUn),
            next,
        ),
        4 => binary(y, at, sp, cells, kinds, Binary::Compare(Relation::Lt), next),
        5 => binary(
            y,
            at,
            sp,
            cells,
            kinds,
            Binary::Compare(Relation::LtUn),
            next,
        ),
        _ => ends(Ending::Undecodable),
    }
}
