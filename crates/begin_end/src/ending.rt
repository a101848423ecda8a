// The state that is handed back: dead cells are 0, and an int32 cell has its sign.
ghost use Rattle.std.specs.Prelude.{◌≡◌, ℕ, ◌+◌, ◌-◌, ◌*◌, ◌≤◌, ◌<◌, length, get_or};
ghost use Rattle.state.specs.View.{depth_of, method_of};
ghost use Rattle.state.specs.Order.{Saved};
ghost use Rattle.state.specs.Meets.{Placed, regs_of};
ghost use Rattle.state.specs.Layout.{tidy_bits, tidy_byte, tidy_cell, tidy_kind, tidy_cells, tidy_kinds, tidy_heap, save, tidy, work_of};
ghost use Rattle.across_frames.specs.Lent.{Framed};
ghost use Rattle.begin_end.specs.Ending.{Waiting, Blank, Changed};

use across_frames::enter::ROW;
use integers::conv_i8;
use loaded::Loaded;
use state::columns::{AT, DEPTH, FRAME, METHOD, STACK};
use state::{Moved, State};

// How many cells an object has.
const OBJECT: usize = 8;

const INT32: u8 = 1;

// The bits of a value of a kind: an int32 has its sign.
fn shown(kind: u8, bits: u64) -> u64
    ensures { result ≡ tidy_bits kind bits }
{
    if kind == INT32 { conv_i8(bits) } else { bits }
}

// The bits of a cell of the type of a byte: 0 where there is no type.
fn typed(byte: u8, bits: u64) -> u64
    ensures { result ≡ tidy_byte byte bits }
{
    if byte == 0 { 0 } else { shown(byte, bits) }
}

// Each cell as it is shown by the byte at its place.
fn rewrite<F: Fn(u8, u64) -> u64>(by: F, bytes: &[u8], cells: &mut [u64])
    requires every { (byte bits : ℕ) → F.pre by byte bits }
    requires as_many { length bytes.now ≡ length cells.old }
    ensures long { length cells.new ≡ length cells.old }
    ensures each { (i : ℕ) → i < length cells.old → F.post by (get_or bytes.now i 0) (get_or cells.old i 0) (get_or cells.new i 0) }
{
    for (i, byte) in bytes.iter().enumerate() {
        cells[i] = by(*byte, cells[i]);
    }
}

// The cells of a live frame: arguments and locals by the types of its method, the live cells of its stack by their kinds.
fn frame(f: usize, methods: &[u8; 4128], kinds: &[u8; 2048], cells: &mut [u64; 2048])
    requires { (f < 32) × (depth_of cells.old f ≤ 32) × (method_of cells.old f ≤ 128) }
    ensures { Changed (λ j. tidy_cell methods.now cells.old kinds.now f (j - f * 64)) (f * 64) (f * 64 + 64)
        cells.old cells.new }
{
    let base = f * FRAME;
    let bottom = base + STACK;
    let top = bottom + cells[base + DEPTH] as usize;
    let row = cells[base + METHOD] as usize * ROW;
    rewrite(typed, &methods[row..row + STACK], &mut cells[base..bottom]);
    rewrite(shown, &kinds[bottom..top], &mut cells[bottom..top]);
    cells[top..base + AT].fill(0);
    cells[base + METHOD + 1..base + FRAME].fill(0);
}

// The cells of all frames.
fn frames(live: usize, methods: &[u8; 4128], kinds: &[u8; 2048], cells: &mut [u64; 2048])
    requires live_range { live ≤ 32 }
    requires waiting { Waiting live cells.old }
    ensures { cells.new ≡ tidy_cells methods.now cells.old kinds.now live }
{
    for f in 0..live {
        frame(f, methods, kinds, cells);
    }
    cells[live * FRAME..].fill(0);
}

// The kinds of a live frame: only a stack cell has one.
fn frame_kinds(f: usize, cells: &[u64; 2048], kinds: &mut [u8; 2048])
    requires { (f < 32) × (depth_of cells.now f ≤ 32) }
    ensures { Changed (λ j. tidy_kind cells.now kinds.old f (j - f * 64)) (f * 64) (f * 64 + 64)
        kinds.old kinds.new }
{
    let base = f * FRAME;
    let bottom = base + STACK;
    let top = bottom + cells[base + DEPTH] as usize;
    kinds[base..bottom].fill(0);
    kinds[top..base + FRAME].fill(0);
}

// The kinds of all frames.
fn all_kinds(live: usize, cells: &[u64; 2048], kinds: &mut [u8; 2048])
    requires live_range { live ≤ 32 }
    requires waiting { Waiting live cells.now }
    ensures { kinds.new ≡ tidy_kinds cells.now kinds.old live }
{
    for f in 0..live {
        frame_kinds(f, cells, kinds);
    }
    kinds[live * FRAME..].fill(0);
}

// The fields of all objects, by the types of their classes.
fn objects(types: &[u8; 264], classes: &[u8; 256], heap: &mut [u64; 2048])
    requires placed { Placed classes.now }
    requires blank { Blank classes.now heap.old }
    ensures { heap.new ≡ tidy_heap types.now classes.now heap.old }
{
    for (place, class) in classes.iter().enumerate() {
        if *class != 0 {
            let fields = usize::from(*class) * OBJECT;
            let at = place * OBJECT;
            rewrite(
                typed,
                &types[fields..fields + OBJECT],
                &mut heap[at..at + OBJECT],
            );
        }
    }
}

// The state of a run that is over, its last registers given: the running frame is saved like the waiting ones, and the first `live` frames are handed back.
pub fn tidy(
    last: Moved,
    live: usize,
    loaded: &Loaded,
    cell_types: &[u8; 264],
    static_types: &[u8; 64],
    state: &mut State,
)
    requires framed { Framed last.fp }
    requires last_range { (last.fp + 24 ≤ last.sp) × (last.sp ≤ last.fp + 56) × (live ≤ 32) }
    requires saved { Saved 128 state.old.cells }
    requires placed { Placed state.old.classes }
    requires blank { Blank state.old.classes state.old.heap }
    ensures { state.new ≡ tidy loaded.now.methods cell_types.now static_types.now (save (work_of (regs_of last) state.old)) live }
{
    state.live = live;
    state.cells[last.fp + AT] = last.at as u64;
    state.cells[last.fp + DEPTH] = (last.sp - (last.fp + STACK)) as u64;
    frames(live, &loaded.methods, &state.kinds, &mut state.cells);
    all_kinds(live, &state.cells, &mut state.kinds);
    objects(cell_types, &state.classes, &mut state.heap);
    rewrite(typed, static_types, &mut state.statics);
}
