// One cell as text, and the cells of a row. A reading at an index that is not there gives 0, so no function of this crate has a `requires`.
ghost use Rattle.std.specs.Prelude.{◌≡◌, ◌*◌, take, drop, get_or};
ghost use Rattle.model.specs.Replay.{cell_text, cell_texts};
ghost use Rattle.state.specs.View.{refer_to, span};
ghost use Rattle.line.specs.Append.{appended};
ghost use Rattle.state_text.specs.Texts.{value_in, comma as comma_text};

use line::text::Text;

// What stands at an index, or `none`.
pub fn at<T: Copy>(cells: &[T], i: usize, none: T) -> T
    ensures { result ≡ get_or cells.now i none }
{
    cells.get(i).copied().unwrap_or(none)
}

// A part of some cells, as far as they go.
pub fn part<T>(cells: &[T], start: usize, size: usize) -> &[T]
    ensures { result.now ≡ take size (drop start cells.now) }
{
    let rest = &cells[start.min(cells.len())..];
    &rest[..size.min(rest.len())]
}

// A row of cells that stand in rows of a width, or none.
pub fn row_of<T>(cells: &[T], width: usize, row: usize) -> &[T]
    ensures { result.now ≡ take width (drop (row * width) cells.now) }
{
    part(cells, row.saturating_mul(width), width)
}

// A reference: null, or its object's number.
fn reference(text: &mut Text, bits: u64)
    ensures { text.new ≡ appended text.old (cell_text (refer_to bits)) }
{
    if bits == 0 {
        text.put(b'n');
    } else {
        text.put(b'o');
        text.decimal(bits);
    }
}

// A cell by its kind or its declared type: 1 int32, 2 int64, 3 F, any other a reference.
pub fn cell(text: &mut Text, kind: u8, bits: u64)
    ensures { text.new ≡ appended text.old (cell_text (value_in kind bits)) }
{
    match kind {
        1 => {
            text.put(b'i');
            text.signed::<i32>(bits);
        }
        2 => {
            text.put(b'l');
            text.signed::<i64>(bits);
        }
        3 => {
            text.put(b'f');
            text.hex(16, bits);
        }
        _ => reference(text, bits),
    }
}

// A comma before every one but the first.
#[tactic(auto, using(line::proofs::Appending::added_none), unfolding(crate::specs::Texts::comma))]
pub fn comma(text: &mut Text, first: bool)
    ensures { text.new ≡ appended text.old (comma_text first) }
{
    if !first {
        text.put(b',');
    }
}

// The first `count` cells of a row, joined by commas.
pub fn cells(text: &mut Text, kinds: &[u8], bits: &[u64], count: usize)
    ensures { text.new ≡ appended text.old (cell_texts (span (λ i. value_in (get_or kinds.now i 0) (get_or bits.now i 0)) 0 count)) }
{
    for i in 0..count {
        comma(text, i == 0);
        cell(text, at(kinds, i, 0), at(bits, i, 0));
    }
}
