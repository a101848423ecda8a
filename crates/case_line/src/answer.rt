// Loads, checks and runs, and says what came of it.
ghost use Rattle.std.specs.Prelude.{◌≡◌, ◌++◌};
ghost use Rattle.model.specs.Tables.{Module};
ghost use Rattle.model.specs.Replay.{replay};
ghost use Rattle.loaded.specs.Holds.{Holds};
ghost use Rattle.state.specs.Order.{Fine};
ghost use Rattle.checker.specs.Bounded.{Bounded};
ghost use Rattle.line.specs.Append.{appended};
ghost use Rattle.runner.specs.Answers.{Loads};
ghost use Rattle.state_text.specs.Texts.{Says};
ghost use Rattle.case_line.specs.Case.{line_feed};
ghost use Rattle.case_line.specs.Texts.{loaded_rest, refuses as refuses_of};

use crate::parts::{check_part, load_part, refused_rest, run_part};
use checker::check;
use line::text::Text;
use loaded::Loaded;
use loader::load_into;
use loitsupar::numbered::numbered;
use prepare::types;
use runner::run;
use state_text::whole::say;

// The numbers of refusals; those above are endings, and 0 is a return from the entry.
const FIRST_REFUSAL: u8 = 1;

const LAST_REFUSAL: u8 = 30;

#[tactic(auto, unfolding(crate::specs::Texts::refuses, model::specs::Loading::within))]
fn refuses(number: u8) -> bool
    ensures { result ≡ refuses_of number }
{
    FIRST_REFUSAL <= number && number <= LAST_REFUSAL
}

// The text of a state whose arrays are lent from one struct.
fn state_part<'a>(
    text: &mut Text,
    methods: &[u8; 4128],
    fields: &[u8; 516],
    types: &[u8; 264],
    live: usize,
    cells: &'a [u64; 2048],
    kinds: &'a [u8; 2048],
    statics: &'a [u64; 64],
    marks: &'a [u8; 33],
    classes: &'a [u8; 256],
    heap: &'a [u64; 2048],
)
    ensures { Says methods.now fields.now types.now
        (record {
          live = live;
          cells = cells.now;
          kinds = kinds.now;
          statics = statics.now;
          marks = marks.now;
          classes = classes.now;
          heap = heap.now;
        })
        text.old text.new }
{
    say(
        text, methods, fields, types, live, cells, kinds, statics, marks, classes, heap,
    );
}

// What follows `load 0 0 `: check and run of the loaded module, and the state that the run ended with.
fn loaded_rest(text: &mut Text, loaded: &Loaded, code: &[u8], arguments: &[u64], budget: u64)
    requires { Loads code.now loaded.now }
    ensures { (M : Module) → Fine M → Bounded M → Holds M code.now loaded.now
        → text.new ≡ appended text.old (loaded_rest M arguments.now budget) }
{
    let found = numbered(&check(loaded, code));
    check_part(text, found);
    let e = run(loaded, code, arguments, budget);
    let end = e.end;
    let value = e.value;
    run_part(text, end, e.steps, value);
    if refuses(end.number) {
        text.word(b"-\n");
        return;
    }
    let mut cell_types = [0u8; 264];
    let mut static_types = [0u8; 64];
    types(
        loaded.counts,
        &loaded.parents,
        &loaded.fields,
        &mut cell_types,
        &mut static_types,
    );
    state_part(
        text,
        &loaded.methods,
        &loaded.fields,
        &cell_types,
        e.state.live,
        &e.state.cells,
        &e.state.kinds,
        &e.state.statics,
        &e.state.marks,
        &e.state.classes,
        &e.state.heap,
    );
    text.put(b'\n');
}

// The line of tables and code, run with arguments and a budget.
pub fn answer(text: &mut Text, tables: &[u8], code: &[u8], arguments: &[u64], budget: u64)
    ensures same_buffer { text.new.out.ghost_name ≡ text.old.out.ghost_name }
    ensures text { text.new ≡ appended text.old (replay tables.now code.now arguments.now budget ++ line_feed) }
{
    let mut loaded = Loaded::default();
    let answer = load_into(tables, code, &mut loaded);
    load_part(text, numbered(&answer));
    match answer {
        Ok(()) => loaded_rest(text, &loaded, code, arguments, budget),
        Err(refusal) => refused_rest(text, refusal),
    }
}
