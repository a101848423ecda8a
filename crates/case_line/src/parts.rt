// The parts of the line, `load N P | check N M O | run N M O S V | STATE`: each goes up to where the next begins.
ghost use Rattle.std.specs.Prelude.{◌≡◌};
ghost use Rattle.line.specs.Append.{appended};
ghost use Rattle.line.specs.Values.{value_of};
ghost use Rattle.case_line.specs.Texts.{load_part, check_part, run_part, refused_rest};

use line::line::Value;
use line::text::Text;
use loaded::Fault;

pub fn load_part(text: &mut Text, f: Fault)
    ensures { text.new ≡ appended text.old (load_part f) }
{
    text.word(b"load ");
    text.number(f.number as usize);
    text.number(f.offset);
}

pub fn check_part(text: &mut Text, f: Fault)
    ensures { text.new ≡ appended text.old (check_part f) }
{
    text.word(b"| check ");
    text.number(f.number as usize);
    text.number(f.method);
    text.number(f.offset);
}

pub fn run_part(text: &mut Text, f: Fault, steps: u64, value: Value)
    ensures { text.new ≡ appended text.old (run_part f steps (value_of value)) }
{
    text.word(b"| run ");
    text.number(f.number as usize);
    text.number(f.method);
    text.number(f.offset);
    text.number(steps as usize);
    text.value(value);
    text.word(b" | ");
}

// A refusal of loading is passed on by the check and by the run, and has no state.
pub fn refused_rest(text: &mut Text, f: Fault)
    ensures { text.new ≡ appended text.old (refused_rest f) }
{
    check_part(text, f);
    run_part(text, f, 0, Value::None);
    text.word(b"-\n");
}
