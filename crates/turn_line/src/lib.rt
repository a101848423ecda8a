// The line of `turn` for a whole input: loads once, checks, runs without arguments.
#![tactic(auto)]

ghost use Rattle.std.specs.Prelude.{◌≡◌, ◌≤◌, length};
ghost use Rattle.std.proofs.Math.Option.{none};
ghost use Rattle.std.proofs.lemmas.List.Edits.{sets};
ghost use Rattle.model.specs.Turn.{line_of, print, play, turn as turn_of};
ghost use Rattle.line.specs.Append.{Alone};

use checker::check;
use line::input::{announced, code_of, tables_of};
use line::line::{Value, line};
use loaded::Loaded;
use loader::load_into;
use runner::run;

// The steps of a run at most.
const BUDGET: u64 = 100000;

// A fault has neither steps nor a value.
fn fault_line(number: u8, method: usize, offset: usize, out: &mut [u8; 128]) -> usize
    ensures { Alone out.old (print (record { ending = number; method = method; offset = offset; steps = 0; value = none }))
        out.new result }
{
    line(number as usize, method, offset, 0, Value::None, out)
}

// A module that loads is checked; one that passes is run.
fn played(tables: &[u8], code: &[u8], out: &mut [u8; 128]) -> usize
    ensures { Alone out.old (print (line_of (play tables.now code.now))) out.new result }
{
    let mut loaded = Loaded::default();
    if let Err(refusal) = load_into(tables, code, &mut loaded) {
        return fault_line(refusal.number, refusal.method, refusal.offset, out);
    }
    let passed = check(&loaded, code);
    if let Err(fault) = passed {
        return fault_line(fault.number, fault.method, fault.offset, out);
    }
    let none = [0u64; 0];
    let e = run(&loaded, code, &none, BUDGET);
    let number = usize::from(e.end.number);
    line(
        number,
        e.end.method,
        e.end.offset,
        e.steps as usize,
        e.value,
        out,
    )
}

// The line for an input, from the start of `out` on, and how long it is; what lay behind it stays.
pub fn turn(input: &[u8], out: &mut [u8; 128]) -> usize
    ensures out_after { out.new ≡ sets out.old 0 (turn_of input.now) }
    ensures size { result ≡ length (turn_of input.now) }
    ensures room { result ≤ 128 }
{
    match announced(input) {
        Ok(start) => played(tables_of(input, start), code_of(input, start), out),
        Err(refused) => fault_line(u8::from(refused), 0, 0, out),
    }
}
