// Types as bytes: every byte from CLASS on is a class, and NULL is also the byte where there is no type.
pub const NULL: u8 = 0;

pub const INT32: u8 = 1;

pub const INT64: u8 = 2;

pub const F: u8 = 3;

pub const CLASS: u8 = 32;
