// What stands where in a frame's 64 cells: 8 arguments, 16 locals, 32 of the stack, then the registers that it waits with.
pub const FRAME: usize = 64;

pub const LOCALS: usize = 8;

pub const STACK: usize = 24;

pub const AT: usize = 56;

pub const DEPTH: usize = 57;

pub const METHOD: usize = 58;

// The first cell of the last frame.
pub const LAST_FRAME: usize = 1984;

// The kind of a variable that isn't there.
pub const NO_VARIABLE: u8 = 4;

// What a step came to, beside the numbers of 01: it goes on in its frame, the entry returned, a class has to start first.
pub const ON: u8 = 0;

pub const OVER: u8 = 1;

pub const START: u8 = 2;

// The opcode changes the frame: the step is another function's.
pub const RET: u8 = 3;

pub const CALL: u8 = 4;

pub const CALLVIRT: u8 = 5;

pub const NEWOBJ: u8 = 6;
