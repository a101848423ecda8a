// Numbers of document 01: limits, sorts of methods, types.

pub const MOST_TABLES: usize = 8192;

pub const MOST_CODE: usize = 32768;

pub const MOST_CLASSES: usize = 32;

pub const MOST_FIELDS: usize = 128;

pub const MOST_STATICS: usize = 64;

pub const MOST_INSTANCE: usize = 8;

pub const MOST_METHODS: usize = 128;

pub const MOST_ARGUMENTS: u8 = 8;

pub const MOST_LOCALS: u8 = 16;

pub const MOST_STACK: u8 = 32;

pub const MOST_LENGTH: usize = 1024;

// Sorts of methods.
// Stays: a sort and a type are the bytes of their rows, which the check and the machine read too; an enum would be turned to and fro at each row.
pub const STATIC: u8 = 0;

pub const VIRTUAL: u8 = 2;

pub const CONSTRUCTOR: u8 = 3;

pub const INITIALISER: u8 = 4;

// Types: a class's is OBJECT and its row. A return type can be VOID.
pub const VOID: u8 = 0;

pub const INT32: u8 = 1;

pub const INT64: u8 = 2;

pub const F: u8 = 3;

pub const OBJECT: u8 = 32;
