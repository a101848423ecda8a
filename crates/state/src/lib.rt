// The state of the machine in arrays, and the registers that the steps keep beside them.
#![tactic(auto)]

pub mod columns; // what stands where in a frame
mod empty; // a state in which nothing is
pub mod ending; // why a run ends
pub mod fit; // whether a value fits a declared type
pub mod tokens; // the rows that tokens name

// The state that is handed back, and that a run can begin from: every dead cell is 0.
#[derive(Drop)]
pub struct State {
    // how many frames are live
    pub live: usize,
    // 64 for each frame: arguments, locals, stack, and what is saved of its registers
    pub cells: [u64; 2048],
    // the kind of a stack cell, at the same index: 0 reference, 1 int32, 2 int64, 3 F; every other cell has a declared type
    pub kinds: [u8; 2048],
    pub statics: [u64; 64],
    // by class row, 1 is started
    pub marks: [u8; 33],
    // the class of each object, 0 a free place
    pub classes: [u8; 256],
    // 8 for each object
    pub heap: [u64; 2048],
}

// A stay in a frame: what is the same as long as no other frame runs.
#[derive(Clone, Copy)]
pub struct Stay {
    // the frame's first cell, and the first byte of its method's row
    pub fp: usize,
    pub mp: usize,
    // the bottom of its stack, and one past the last cell that max stack allows
    pub floor: usize,
    pub limit: usize,
}

// The instructions that change the frame, by the numbers of `columns`.
#[derive(Clone, Copy, PartialEq, Eq)]
pub enum Leave {
    Ret = 3,
    Call = 4,
    Callvirt = 5,
    Newobj = 6,
}

// How a step went. Where it doesn't go on, nothing has changed.
#[derive(Clone, Copy, PartialEq, Eq)]
pub enum Step {
    // it goes on in its frame: the offset of the next instruction, and the index one past the stack's top
    On { at: usize, sp: usize },
    // a class has to start first: the row of its initialiser
    Start { first: usize },
    // the run ends with a number of 01
    Ends(u8),
    // the instruction changes the frame, and is another function's
    Leaves(Leave),
}

// How a step went that may leave its frame: the registers after it, `row` the running method's and `made` the number of objects.
#[derive(Clone, Copy)]
pub struct Moved {
    pub how: u8,
    pub at: usize,
    pub sp: usize,
    pub fp: usize,
    pub row: usize,
    pub made: usize,
}
