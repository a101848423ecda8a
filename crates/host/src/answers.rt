// The cells of a fault and of an answer.
ghost use Rattle.std.specs.Prelude.{◌≡◌, ◌≤◌, length};
ghost use Rattle.host.specs.Hosting.{over, fault_cells, told_cells, sort_of, bits_of};

use line::line::Value;
use loaded::Fault;
use runner::Summary;

// How many cells a fault has, and how many an answer.
pub const FAULT: usize = 3;

pub const ANSWER: usize = 6;

// The sorts of a value.
const NO_VALUE: u64 = 0;

const INT32: u64 = 1;

const INT64: u64 = 2;

const F: u64 = 3;

// A fault: number, method row, offset.
pub fn lay_fault(out: &mut [u64], f: Fault)
    requires { 3 ≤ length out.old }
    ensures { out.new ≡ over (fault_cells f) out.old }
{
    out[0] = u64::from(f.number);
    out[1] = f.method as u64;
    out[2] = f.offset as u64;
}

// The sort of a value, 0 none, 1 int32, 2 int64, 3 F, and its bits, of an int32 with its sign. No entry returns a reference.
fn sort_and_bits(value: Value) -> (u64, u64)
    ensures { result ≡ (sort_of value, bits_of value) }
{
    match value {
        Value::Int32(bits) => (INT32, bits),
        Value::Int64(bits) => (INT64, bits),
        Value::Real(bits) => (F, bits),
        Value::None => (NO_VALUE, 0),
        Value::Null => (NO_VALUE, 0),
        Value::Object(_) => (NO_VALUE, 0),
    }
}

// An answer: how the run ended and where, its steps, sort and bits of its value.
pub fn lay_answer(out: &mut [u64], summary: Summary)
    requires { 6 ≤ length out.old }
    ensures { out.new ≡ over (told_cells summary.end summary.steps summary.value) out.old }
{
    lay_fault(out, summary.end);
    let (sort, bits) = sort_and_bits(summary.value);
    out[3] = summary.steps;
    out[4] = sort;
    out[5] = bits;
}
