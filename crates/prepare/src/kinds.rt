// The kinds of a method's variables.
ghost use Rattle.std.specs.Prelude.{◌≡◌, ◌<◌, length};
ghost use Rattle.state.specs.Order.{kind_or_none};
ghost use Rattle.prepare.specs.Kinds.{RowKinds};

use loaded::columns::{METHOD, SORT};
use state::columns::NO_VARIABLE;
use state::fit::kind_of;

// The kind of a variable's type, where there is such a variable.
#[tactic(auto, unfolding(state::specs::Order::kind_or_none, model::specs::Answer::pick))]
fn kind_or_none(byte: u8) -> u8
    ensures { result ≡ kind_or_none byte }
{
    if byte == 0 {
        return NO_VARIABLE;
    }
    kind_of(byte)
}

// The kinds of the variables of a row, whose types stand before its sort.
pub fn row_kinds(methods: &[u8; 4128], row: usize, variables: &mut [u8; 4128])
    requires row_below { row < 129 }
    requires variables_len { length variables.old ≡ 4128 }
    ensures { RowKinds row 24 methods.now variables.old variables.new }
{
    let first = row * METHOD;
    for i in 0..SORT {
        variables[first + i] = kind_or_none(methods[first + i]);
    }
}
