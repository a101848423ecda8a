// A state whole, as text: `frames=FRAMES statics=STATICS marks=MARKS heap=HEAP`.
ghost use Rattle.state_text.specs.Texts.{Says, Told};

use crate::frame::frames;
use crate::members::{marks, objects, statics};
use line::text::Text;

// The state in arrays, `live` of its frames being live. Of the module it needs the rows of methods and fields and the types of objects' cells.
pub fn say(
    text: &mut Text,
    methods: &[u8; 4128],
    fields: &[u8; 516],
    types: &[u8; 264],
    live: usize,
    cells: &[u64; 2048],
    kinds: &[u8; 2048],
    bits: &[u64; 64],
    started: &[u8; 33],
    classes: &[u8; 256],
    heap: &[u64; 2048],
)
    ensures { Says methods.now fields.now types.now
        (record {
          live = live;
          cells = cells.now;
          kinds = kinds.now;
          statics = bits.now;
          marks = started.now;
          classes = classes.now;
          heap = heap.now;
        })
        text.old text.new }
{
    text.word(b"frames=");
    frames(text, methods, live, cells, kinds);
    text.word(b" statics=");
    statics(text, fields, bits);
    text.word(b" marks=");
    marks(text, started);
    text.word(b" heap=");
    objects(text, classes, types, heap);
}

// The same after what `out` holds up to `at`.
// Stays: docs/PROMISES.md promises this function with its arrays lent one by one.
pub fn state(
    out: &mut [u8],
    at: usize,
    methods: &[u8; 4128],
    fields: &[u8; 516],
    types: &[u8; 264],
    live: usize,
    cells: &[u64; 2048],
    kinds: &[u8; 2048],
    bits: &[u64; 64],
    started: &[u8; 33],
    classes: &[u8; 256],
    heap: &[u64; 2048],
) -> usize
    ensures { Told methods.now fields.now types.now
        (record {
          live = live;
          cells = cells.now;
          kinds = kinds.now;
          statics = bits.now;
          marks = started.now;
          classes = classes.now;
          heap = heap.now;
        })
        out.old at out.new result }
{
    let mut text = Text::up_to(out, at);
    say(
        &mut text, methods, fields, types, live, cells, kinds, bits, started, classes, heap,
    );
    text.end()
}
