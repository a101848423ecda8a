// Static fields, marks of started classes and objects of a state as text.
ghost use Rattle.std.specs.Prelude.{◌≡◌, ◌==◌, [], ◌∷◌, count_by, not};
ghost use Rattle.model.specs.Replay.{commas, heap_text};
ghost use Rattle.line.specs.Append.{appended};
ghost use Rattle.state_text.specs.Texts.{up_to, static_at, mark_row, place_of, heap_in};

use crate::cell::{at, cell, cells, comma, row_of};
use line::text::Text;
use loaded::columns::{FIELD, FIELD_ROWS, SLOT, STATIC, TYPE};

// How many cells an object has at most.
const OBJECT: usize = 8;

// The static fields by rising row, joined by commas: the row among all fields, and the cell.
pub fn statics(text: &mut Text, fields: &[u8; 516], bits: &[u64; 64])
    ensures { text.new ≡ appended text.old (commas (up_to (static_at fields.now bits.now) 129)) }
{
    let mut first = true;
    for row in 0..FIELD_ROWS {
        let field = row_of(fields, FIELD, row);
        if at(field, STATIC, 0) == 1 {
            comma(text, first);
            text.decimal(row as u64);
            text.put(b':');
            cell(
                text,
                at(field, TYPE, 0),
                at(bits, at(field, SLOT, 0) as usize, 0),
            );
            first = false;
        }
    }
}

// The rows of the started classes, rising, joined by commas.
pub fn marks(text: &mut Text, started: &[u8; 33])
    ensures { text.new ≡ appended text.old (commas (up_to (mark_row started.now) 33)) }
{
    let mut first = true;
    for (row, mark) in started.iter().enumerate() {
        if *mark == 1 {
            comma(text, first);
            text.decimal(row as u64);
            first = false;
        }
    }
}

// How many cells there are: a cell that objects of a class don't have has no type.
fn size(kinds: &[u8]) -> usize
    ensures { result ≡ count_by (λ kind. not (kind == 0)) kinds.now }
{
    kinds.iter().filter(|kind| **kind != 0).count()
}

// The object of a class at a place: its class and its cells, those inherited first, of which each has a type. Nothing for class 0, a free place.
fn object(text: &mut Text, class: u8, types: &[u8; 264], heap: &[u64; 2048], place: usize)
    ensures { text.new ≡ appended text.old (heap_text (place_of types.now heap.now place class ∷ [])) }
{
    if class != 0 {
        let kinds = row_of(types, OBJECT, class as usize);
        text.put(b'(');
        text.decimal(class as u64);
        text.put(b';');
        cells(text, kinds, row_of(heap, OBJECT, place), size(kinds));
        text.put(b')');
    }
}

// The objects in the order made, nothing between.
pub fn objects(text: &mut Text, classes: &[u8; 256], types: &[u8; 264], heap: &[u64; 2048])
    ensures { text.new ≡ appended text.old (heap_text (heap_in classes.now types.now heap.now)) }
{
    for (place, class) in classes.iter().enumerate() {
        object(text, *class, types, heap, place);
    }
}
