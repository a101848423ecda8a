// The line that `turn` prints.
ghost use Rattle.std.specs.Prelude.{◌≡◌};
ghost use Rattle.model.specs.Turn.{text_of, print};
ghost use Rattle.line.specs.Append.{appended, Appended, Alone};
ghost use Rattle.line.specs.Values.{value_of};

use super::text::Text;

// What a run hands back, as bits; an object is its number.
#[derive(Clone, Copy)]
pub enum Value {
    None,
    Int32(u64),
    Int64(u64),
    Real(u64),
    Null,
    Object(u64),
}

// How many digits an F has.
const REAL_DIGITS: usize = 16;

impl<'a> Text<'a> {
    // A value: decimal, F as 16 upper-case hex digits, `-` for none; no class is returned by an entry.
    #[tactic(auto, unfolding(model::specs::Turn::text_of, model::specs::Turn::dash))]
    pub fn value(&mut self, value: Value)
        ensures { self.new ≡ appended self.old (text_of (value_of value)) }
    {
        match value {
            Value::Int32(n) => self.signed::<i32>(n),
            Value::Int64(n) => self.signed::<i64>(n),
            Value::Real(n) => self.hex(REAL_DIGITS, n),
            Value::None | Value::Null | Value::Object(_) => self.put(b'-'),
        }
    }

    // The line.
    #[tactic(auto, using(crate::proofs::Appending::added_parts), unfolding(model::specs::Turn::print))]
    fn line(&mut self, ending: usize, method: usize, offset: usize, steps: usize, value: Value)
        ensures { self.new ≡ appended self.old
            (print (record { ending = ending; method = method; offset = offset; steps = steps; value = value_of value })) }
    {
        self.number(ending);
        self.number(method);
        self.number(offset);
        self.number(steps);
        self.value(value);
        self.put(b'\n');
    }
}

// The line, after what `out` holds up to `at`.
pub fn append_line(
    out: &mut [u8],
    at: usize,
    ending: usize,
    method: usize,
    offset: usize,
    steps: usize,
    value: Value,
) -> usize
    ensures { Appended out.old at (print (record { ending = ending; method = method; offset = offset; steps = steps; value = value_of value })) out.new result }
{
    let mut text = Text::up_to(out, at);
    text.line(ending, method, offset, steps, value);
    text.end()
}

// The line alone, and how long it is.
pub fn line(
    ending: usize,
    method: usize,
    offset: usize,
    steps: usize,
    value: Value,
    out: &mut [u8; 128],
) -> usize
    ensures { Alone out.old (print (record { ending = ending; method = method; offset = offset; steps = steps; value = value_of value }))
        out.new result }
{
    append_line(out, 0, ending, method, offset, steps, value)
}
