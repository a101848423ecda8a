// The first frames of a run.
ghost use Rattle.std.specs.Prelude.{◌≡◌, List, ℕ, ◌≤◌, replicate};
ghost use Rattle.loaded.specs.Holds.{method_cell};
ghost use Rattle.state.specs.Work.{Tables, copy_of};
ghost use Rattle.state.specs.Layout.{first_w};
ghost use Rattle.state.specs.Meets.{Few, regs_of};
ghost use Rattle.across_frames.specs.Lent.{on_leave, RowRanges, Landed};
ghost use Rattle.begin_end.specs.Beginning.{blank_w, with_frames};

use across_frames::enter::{ROW, enter};
use loaded::Loaded;
use loaded::columns::OWNER;
use state::columns::{METHOD, ON, STACK};
use state::{Moved, State, Stay};

// The row of the class Object.
const OBJECT: usize = 1;

// The entry's frame, whose arguments stand in its cells, and the frame of its class's initialiser, if any, above it. Object and the entry's class are started.
pub fn first(loaded: &Loaded, state: &mut State) -> Moved
    requires entry_at_most { loaded.now.counts.entry ≤ 128 }
    requires row_ranges { RowRanges loaded.now.methods }
    requires few { Few 128 loaded.now.initialisers }
    ensures landed { Landed result }
    ensures how_is { result.how ≡ 0 }
    ensures rest { state.new ≡ with_frames state.old state.new.cells state.new.marks }
    ensures as_model { ((P : Tables) (given : List ℕ) → P.methods ≡ loaded.now.methods
        → P.initialisers ≡ loaded.now.initialisers
        → state.old.cells ≡ copy_of (method_cell loaded.now.methods loaded.now.counts.entry 28) given 0 0 (replicate 2048 0) → state.old.marks ≡ replicate 33 0
        → on_leave blank_w (regs_of result) state.new.cells (replicate 2048 0) state.new.marks (replicate 256 0) ≡ first_w P loaded.now.counts.entry given) }
{
    let entry = loaded.counts.entry;
    let row = entry * ROW;
    let owner = usize::from(loaded.methods[row + OWNER]);
    state.marks[OBJECT] = 1;
    state.marks[owner] = 1;
    state.cells[METHOD] = entry as u64;
    let initialiser = usize::from(loaded.initialisers[owner]);
    if initialiser == 0 {
        return Moved {
            how: ON,
            at: 0,
            sp: STACK,
            fp: 0,
            row: entry,
            made: 0,
        };
    }
    let y = Stay {
        fp: 0,
        mp: row,
        floor: STACK,
        limit: STACK,
    };
    enter(
        y,
        0,
        STACK,
        0,
        &mut state.cells,
        &loaded.methods,
        initialiser,
    )
}
