// Which arguments the entry takes. They come as int64, in bits.
ghost use Rattle.std.specs.Prelude.{◌≡◌, List, ℕ, ◌≤◌, length};
ghost use Rattle.std.proofs.Math.Option.{some};
ghost use Rattle.model.specs.Answer.{pick, only_if};
ghost use Rattle.model.specs.Tables.{Module, method_at};
ghost use Rattle.model.specs.Run.{admit};
ghost use Rattle.loaded.specs.declared.Loaded.{Loaded as Lists};
ghost use Rattle.loaded.specs.Holds.{method_cell, Holds};
ghost use Rattle.state.specs.View.{seen};
ghost use Rattle.state.specs.Work.{copy_of};
ghost use Rattle.state.specs.Order.{Fine};
ghost use Rattle.begin_end.specs.Admission.{takes, takes_all};
ghost use Rattle.begin_end.specs.Beginning.{with_frames};

use across_frames::enter::ROW;
use integers::admitted;
use loaded::Loaded;
use loaded::columns::ARGUMENT_COUNT;
use state::State;

// The types that take an argument.
const INT32: u8 = 1;

const INT64: u8 = 2;

// Whether a parameter of the type of a byte takes an argument.
fn takes(byte: u8, argument: u64) -> bool
    ensures { result ≡ takes byte argument }
{
    match byte {
        INT32 => admitted(argument),
        INT64 => true,
        _ => false,
    }
}

// Whether parameters of the types of bytes take the arguments.
fn takes_all(types: &[u8], given: &[u64]) -> bool
    requires { length given.now ≡ length types.now }
    ensures { result ≡ takes_all types.now given.now 0 }
{
    for (i, argument) in given.iter().enumerate() {
        if !takes(types[i], *argument) {
            return false;
        }
    }
    true
}

// Whether the entry takes the arguments, as many as it has parameters; where it does they are laid in the cells of the first frame.
pub fn admit(loaded: &Loaded, given: &[u64], state: &mut State) -> bool
    requires { (loaded.now.counts.entry ≤ 128) × (method_cell loaded.now.methods loaded.now.counts.entry 28 ≤ 8) }
    ensures state_is { state.new ≡ pick result
        (with_frames state.old (copy_of (method_cell loaded.now.methods loaded.now.counts.entry 28) given.now 0 0 state.old.cells) state.old.marks)
        state.old }
    ensures as_model { ((M : Module) (code : List ℕ) (L : Lists) → Holds M code L → Fine M → L.methods ≡ loaded.now.methods
        → L.counts.entry ≡ loaded.now.counts.entry
        → admit (method_at M.methods M.entry).params given.now
        ≡ only_if result (some (seen (method_at M.methods M.entry).params given.now 0))) }
{
    let row = loaded.counts.entry * ROW;
    let count = given.len();
    if count != usize::from(loaded.methods[row + ARGUMENT_COUNT]) {
        return false;
    }
    if !takes_all(&loaded.methods[row..row + count], given) {
        return false;
    }
    state.cells[..count].copy_from_slice(given);
    true
}
