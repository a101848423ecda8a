// Where each part of a state begins in a host's cells; the first cell is how many frames are live.
pub const KINDS: usize = 1;

pub const STACKS: usize = 1025;

pub const ARGUMENTS: usize = 2049;

pub const LOCALS: usize = 2305;

pub const OFFSETS: usize = 2817;

pub const HEIGHTS: usize = 2849;

pub const METHODS: usize = 2881;

pub const STATICS: usize = 2913;

pub const MARKS: usize = 2977;

pub const CLASSES: usize = 3010;

pub const HEAP: usize = 3266;

// How many cells a state has.
pub const STATE: usize = 5314;
