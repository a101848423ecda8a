// Tables of a row for each class.
ghost use Rattle.std.specs.Prelude.{◌≡◌, ◌+◌, ◌*◌, ◌%◌, ◌≤◌, ◌<◌, length};
ghost use Rattle.prepare.specs.Rows.{or_other, Filled, Inherited};

use loaded::columns::CLASS_ROWS;

// A number, or another where it is 0.
#[tactic(auto, unfolding(crate::specs::Rows::or_other, model::specs::Answer::pick))]
fn or_other(a: u8, b: u8) -> u8
    ensures { result ≡ or_other a b }
{
    if a == 0 { b } else { a }
}

// The n cells from `to` on take, where they have 0, what stands as far from `from` on.
fn fill(table: &mut [u8], from: usize, to: usize, n: usize)
    requires { (from + n ≤ length table.old) × (to + n ≤ length table.old) }
    ensures { Filled from to n table.old table.new }
{
    for i in 0..n {
        table[to + i] = or_other(table[to + i], table[from + i]);
    }
}

// The first n cells of each row take from the row of its parent, from the first class to the last.
pub fn inherit(parents: &[u8; 33], classes: usize, table: &mut [u8], width: usize, n: usize)
    requires { (length table.old ≡ 33 * width) × (width < 256) × (n ≤ width) }
    ensures { Inherited parents.now width n (classes % 33 + 1) table.old table.new }
{
    for c in 1..=classes % CLASS_ROWS {
        let parent = parents[c] as usize % CLASS_ROWS;
        fill(table, parent * width, c * width, n);
    }
}
