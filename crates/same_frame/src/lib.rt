// The steps of one stay in a frame: as long as no other frame runs, its method's code, its row and its bottom stay the same.
#![tactic(auto)]

ghost use Rattle.std.specs.Prelude.{◌≡◌, List, ℕ, ◌-◌, ◌≤◌};
ghost use Rattle.state.specs.View.{Work};
ghost use Rattle.state.specs.Work.{Tables, EndedW};
ghost use Rattle.fields.specs.Members.{on_member};
ghost use Rattle.one_step.specs.Told.{Lends};
ghost use Rattle.between_steps.proofs.Going.{Going};
ghost use Rattle.same_frame.specs.Stays.{Place, Sits, Came, stopped_by};

use one_step::step;
use state::columns::START;
use state::ending::{Ending, ends};
use state::{Stay, Step};

// How a stay ended: `next` is the step that changes the frame, and `first` the initialiser's row where one comes first; where `next` is 0, the run ends with `how`.
// `left` is what is left of the budget.
#[derive(Clone, Copy)]
pub struct Stayed {
    pub next: u8,
    pub how: u8,
    pub first: usize,
    pub at: usize,
    pub sp: usize,
    pub left: u64,
}

// A stay ends with a step that doesn't go on in its frame.
fn stopped(step: Step, at: usize, sp: usize, left: u64) -> Stayed
    ensures { result ≡ stopped_by step at sp left }
{
    let (next, how, first) = match step {
        Step::On { at: _, sp: _ } => (0, 0, 0),
        Step::Start { first } => (START, 0, first),
        Step::Ends(ending) => (0, ending, 0),
        Step::Leaves(leave) => (leave as u8, 0, 0),
    };
    Stayed {
        next: next,
        how: how,
        first: first,
        at: at,
        sp: sp,
        left: left,
    }
}

// At most `budget` steps from an offset and a stack's top on, as long as the frame stays.
#[inline(always)]
pub fn same_frame(
    y: Stay,
    part: &[u8],
    at: usize,
    sp: usize,
    budget: u64,
    cells: &mut [u64; 2048],
    kinds: &mut [u8; 2048],
    marks: &mut [u8; 33],
    classes: &[u8; 256],
    heap: &mut [u64; 2048],
    statics: &mut [u64; 64],
    methods: &[u8; 4128],
    variables: &[u8; 4128],
    fields: &[u8; 516],
    initialisers: &[u8; 33],
    ancestors: &[u64; 33],
    class_count: usize,
    field_count: usize,
) -> Stayed
    requires { Sits y part.now class_count field_count methods.now variables.now fields.now initialisers.now ancestors.now at sp cells.old
        kinds.old marks.old classes.now heap.old statics.old }
    ensures left_at_most { result.left ≤ budget }
    ensures came { ((code : List ℕ) (P : Tables) (c : Work) (most : ℕ) (whole : EndedW) → Lends P class_count field_count methods.now
        variables.now fields.now initialisers.now ancestors.now →
        Place code P y part.now c.regs → budget ≤ most →
        Going code P most whole (most - budget) (on_member c at sp cells.old kinds.old marks.old classes.now
        heap.old statics.old) →
        Came code P y part.now most whole result (on_member c result.at result.sp cells.new kinds.new marks.new
        classes.now heap.new statics.new)) }
{
    let mut o = at;
    let mut s = sp;
    let mut left = budget;
    while left != 0 {
        if part.len() <= o {
            return stopped(ends(Ending::PastEnd), o, s, left);
        }
        match step(
            y,
            part,
            part[o],
            o,
            s,
            cells,
            kinds,
            marks,
            classes,
            heap,
            statics,
            methods,
            variables,
            fields,
            initialisers,
            ancestors,
            class_count,
            field_count,
        ) {
            Step::On { at, sp } => {
                o = at;
                s = sp;
            }
            other => return stopped(other, o, s, left),
        }
        left -= 1;
    }
    stopped(ends(Ending::UsedBudget), o, s, 0)
}
