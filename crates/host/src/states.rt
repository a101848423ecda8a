// The cells of a state, in a host's order: each part for all frames together, where the machine has a frame's cells together.
ghost use Rattle.std.specs.Prelude.{◌≡◌, ◌+◌, ◌*◌, ◌≤◌, ◌<◌, length};
ghost use Rattle.host.specs.Hosting.{over, place_of, frame_place, state_cell, state_cells};

use crate::parts;
use state::{State, columns};

// How many cells a frame has for its stack, its arguments and its locals.
const STACK_CELLS: usize = 32;

const ARGUMENT_CELLS: usize = 8;

const LOCAL_CELLS: usize = 16;

// The place among the frames' cells of cell i of a part, which begins at a column of each frame and is so many cells wide.
fn place(column: usize, width: usize, i: usize) -> usize
    requires { (0 < width) × (column + width ≤ 64) × (i < 32 * width) }
    ensures { (result ≡ place_of column width i) × (result < 2048) }
{
    i / width * columns::FRAME + column + i % width
}

// The place among the frames' cells of cell i of a state.
fn frame_place(i: usize) -> usize
    requires { (1025 ≤ i) × (i < 2913) }
    ensures { (result ≡ frame_place i) × (result < 2048) }
{
    if i < parts::ARGUMENTS {
        return place(columns::STACK, STACK_CELLS, i - parts::STACKS);
    }
    if i < parts::LOCALS {
        return place(0, ARGUMENT_CELLS, i - parts::ARGUMENTS);
    }
    if i < parts::OFFSETS {
        return place(columns::LOCALS, LOCAL_CELLS, i - parts::LOCALS);
    }
    if i < parts::HEIGHTS {
        return place(columns::AT, 1, i - parts::OFFSETS);
    }
    if i < parts::METHODS {
        return place(columns::DEPTH, 1, i - parts::HEIGHTS);
    }
    place(columns::METHOD, 1, i - parts::METHODS)
}

// Cell i of a state.
fn state_cell(i: usize, state: &State) -> u64
    requires { i < 5314 }
    ensures { result ≡ state_cell state.now i }
{
    if i < parts::KINDS {
        return state.live as u64;
    }
    if i < parts::STACKS {
        return u64::from(state.kinds[place(columns::STACK, STACK_CELLS, i - parts::KINDS)]);
    }
    if i < parts::STATICS {
        return state.cells[frame_place(i)];
    }
    if i < parts::MARKS {
        return state.statics[i - parts::STATICS];
    }
    if i < parts::CLASSES {
        return u64::from(state.marks[i - parts::MARKS]);
    }
    if i < parts::HEAP {
        return u64::from(state.classes[i - parts::CLASSES]);
    }
    state.heap[i - parts::HEAP]
}

// A state, cell by cell.
pub fn lay_state(out: &mut [u64], state: &State)
    requires { 5314 ≤ length out.old }
    ensures { out.new ≡ over (state_cells state.now) out.old }
{
    for i in 0..parts::STATE {
        out[i] = state_cell(i, state);
    }
}
