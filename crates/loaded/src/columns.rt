// What stands where in a row.

// Of a method: how many bytes a row has, where the types of its arguments and of its locals begin, then its columns.
pub const METHOD: usize = 32;

pub const ARGUMENTS: usize = 0;

pub const LOCALS: usize = 8;

pub const SORT: usize = 24;

pub const OWNER: usize = 25;

pub const RETURN: usize = 26;

pub const MAX_STACK: usize = 27;

pub const ARGUMENT_COUNT: usize = 28;

pub const LOCAL_COUNT: usize = 29;

pub const ROOT: usize = 30;

pub const OVERRIDDEN: usize = 31;

// Of a field.
pub const FIELD: usize = 4;

pub const FIELD_OWNER: usize = 0;

pub const STATIC: usize = 1;

pub const TYPE: usize = 2;

pub const SLOT: usize = 3;

// Of a method's part of the code.
pub const PART: usize = 2;

pub const OFFSET: usize = 0;

pub const LENGTH: usize = 1;

// One row more than the most classes, fields and methods.
pub const CLASS_ROWS: usize = 33;

pub const FIELD_ROWS: usize = 129;

pub const METHOD_ROWS: usize = 129;
