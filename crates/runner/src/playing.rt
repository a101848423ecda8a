// The loop from the arguments laid in the first frame, and what is told of its end.
ghost use Rattle.std.specs.Prelude.{◌≡◌, suc, ◌-◌, ◌/◌, ◌≤◌, ◌<◌, eqb};
ghost use Rattle.std.proofs.Math.Option.{some};
ghost use Rattle.model.specs.Answer.{pick};
ghost use Rattle.state.specs.View.{value_by};
ghost use Rattle.state.specs.Layout.{work_of};
ghost use Rattle.state.specs.Meets.{regs_of};
ghost use Rattle.machine.specs.Ending.{ended_by};
ghost use Rattle.runner.specs.Answers.{Loads, value_in};
ghost use Rattle.runner.specs.Playing.{returned, summed, Begun, ended_with, Plays};

use crate::summary::Summary;
use begin_end::beginning::first;
use begin_end::ending::tidy;
use integers::conv_i8;
use line::line::Value;
use loaded::columns::{METHOD, RETURN};
use loaded::{Fault, Loaded};
use machine::{Stopped, steps};
use prepare::types;
use state::columns::{FRAME, OVER, STACK};
use state::{Moved, State};

// The kinds of a stack cell; any other is an F.
const REFERENCE: u8 = 0;

const INT32: u8 = 1;

const INT64: u8 = 2;

// The value of a kind in 64 bits, an int32 with its sign.
fn value_of(kind: u8, bits: u64) -> Value
    ensures { result ≡ value_in (some (value_by kind bits)) }
{
    match kind {
        REFERENCE => {
            if bits == 0 {
                return Value::Null;
            }
            Value::Object(bits)
        }
        INT32 => Value::Int32(conv_i8(bits)),
        INT64 => Value::Int64(bits),
        _ => Value::Real(bits),
    }
}

// The value that the entry returns, by the byte of its return type: none where it has none.
fn value_due(byte: u8, kind: u8, bits: u64) -> Value
    ensures { result ≡ value_in (returned byte kind bits) }
{
    if byte == 0 {
        return Value::None;
    }
    value_of(kind, bits)
}

// The steps made: the return from the entry is a step too.
fn counted(how: u8, budget: u64, left: u64) -> u64
    requires { (left ≤ budget) × (how ≡ 1 → 0 < left) }
    ensures { result ≡ pick (eqb how 1) (suc (budget - left)) (budget - left) }
{
    if how == OVER {
        return budget - (left - 1);
    }
    budget - left
}

// How many frames are live: none after a return from the entry.
fn live(last: Moved) -> usize
    requires { last.fp ≤ 1984 }
    ensures { result ≡ pick (eqb last.how 1) 0 (suc (last.fp / 64)) }
{
    if last.how == OVER {
        0
    } else {
        last.fp / FRAME + 1
    }
}

// What is told of how the loop was left: after a return from the entry a value stands in the first cell of the entry's stack.
fn told(r: Stopped, budget: u64, loaded: &Loaded, state: &State) -> Summary
    requires last_range { (r.last.row ≤ 128) × (r.last.fp ≤ 1984) }
    requires left_range { (r.left ≤ budget) × (r.last.how ≡ 1 → 0 < r.left) }
    ensures { result ≡ summed (ended_by loaded.now.methods budget r (work_of (regs_of r.last) state.now)) }
{
    let last = r.last;
    let bottom = last.fp + STACK;
    let (number, value) = if last.how == OVER {
        let due = loaded.methods[last.row * METHOD + RETURN];
        (0, value_due(due, state.kinds[bottom], state.cells[bottom]))
    } else {
        (last.how, Value::None)
    };
    Summary {
        end: Fault {
            number,
            method: last.row,
            offset: last.at,
        },
        steps: counted(last.how, budget, r.left),
        value,
    }
}

// The loop from the entry's frame on, whose arguments stand in the cells; the state that it ends in is left in the state that is lent, every dead cell 0.
pub fn played(loaded: &Loaded, code: &[u8], budget: u64, state: &mut State) -> Summary
    requires loads { Loads code.now loaded.now }
    requires begun { Begun loaded.now state.old }
    ensures { Plays code.now loaded.now state.old.cells budget (ended_with result state.new) }
{
    let begun = first(loaded, state);
    let r = steps(state, loaded, code, begun, budget);
    let summary = told(r, budget, loaded, state);
    let mut cell_types = [0u8; 264];
    let mut static_types = [0u8; 64];
    types(
        loaded.counts,
        &loaded.parents,
        &loaded.fields,
        &mut cell_types,
        &mut static_types,
    );
    tidy(
        r.last,
        live(r.last),
        loaded,
        &cell_types,
        &static_types,
        state,
    );
    summary
}
