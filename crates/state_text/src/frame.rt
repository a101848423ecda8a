// The frames of a state as text: `[METHOD,OFFSET;ARGUMENTS;LOCALS;STACK]` for each.
ghost use Rattle.std.specs.Prelude.{◌≡◌, []};
ghost use Rattle.model.specs.Replay.{frame_text, frames_text};
ghost use Rattle.line.specs.Append.{appended};
ghost use Rattle.state_text.specs.Texts.{one_frame, frames_in};

use crate::cell::{at, cells, part, row_of};
use line::text::Text;
use loaded::columns::{ARGUMENT_COUNT, LOCAL_COUNT, METHOD as METHOD_ROW};
use state::columns::{AT, DEPTH, FRAME, LOCALS, METHOD, STACK};

// How many locals and stack cells a frame has.
const LOCAL_CELLS: usize = 16;

const STACK_CELLS: usize = 32;

// One frame: method, offset, arguments, locals, the stack from its bottom.
fn one(text: &mut Text, methods: &[u8; 4128], cells_of: &[u64; 2048], kinds: &[u8; 2048], i: usize)
    ensures { text.new ≡ appended text.old (frame_text (one_frame methods.now cells_of.now kinds.now i)) }
{
    let frame = row_of(cells_of, FRAME, i);
    let kept = row_of(kinds, FRAME, i);
    let row = at(frame, METHOD, 0) as usize;
    let method = row_of(methods, METHOD_ROW, row);
    text.put(b'[');
    text.decimal(row as u64);
    text.put(b',');
    text.decimal(at(frame, AT, 0));
    text.put(b';');
    cells(text, method, frame, at(method, ARGUMENT_COUNT, 0) as usize);
    text.put(b';');
    cells(
        text,
        part(method, LOCALS, LOCAL_CELLS),
        part(frame, LOCALS, LOCAL_CELLS),
        at(method, LOCAL_COUNT, 0) as usize,
    );
    text.put(b';');
    cells(
        text,
        part(kept, STACK, STACK_CELLS),
        part(frame, STACK, STACK_CELLS),
        at(frame, DEPTH, 0) as usize,
    );
    text.put(b']');
}

// The frames from the entry's to the running one, nothing between.
pub fn frames(
    text: &mut Text,
    methods: &[u8; 4128],
    live: usize,
    cells: &[u64; 2048],
    kinds: &[u8; 2048],
)
    ensures { text.new ≡ appended text.old (frames_text (frames_in methods.now live cells.now kinds.now) []) }
{
    for i in 0..live {
        one(text, methods, cells, kinds, i);
    }
}
