// The cells of a shape.
ghost use Rattle.std.specs.Prelude.{◌≡◌, ◌≤◌, ◌<◌, length};
ghost use Rattle.host.specs.Hosting.{over, shape_cell, shape_cells};

use checker::tell::Found;

// Where the depth stands, where the types begin, and how many cells a shape has.
const DEPTH: usize = 1;

const TYPES: usize = 2;

pub const SHAPE: usize = 34;

// Cell i of a shape: all are 0 where no instruction starts.
fn shape_cell(i: usize, found: &Option<Found>) -> u64
    requires { i < 34 }
    ensures { result ≡ shape_cell found.now i }
{
    let Some(found) = found else {
        return 0;
    };
    if i < DEPTH {
        return 1;
    }
    if i < TYPES {
        return found.depth as u64;
    }
    u64::from(found.types[i - TYPES])
}

// A shape, cell by cell.
pub fn lay_shape(out: &mut [u64], found: &Option<Found>)
    requires { 34 ≤ length out.old }
    ensures { out.new ≡ over (shape_cells found.now) out.old }
{
    for i in 0..SHAPE {
        out[i] = shape_cell(i, found);
    }
}
