// What reading keeps beside the module.
ghost use Rattle.std.specs.Prelude.{◌≡◌, eqb};
ghost use Rattle.loader.specs.Kinds.{last_byte};
ghost use Rattle.loader.specs.Stands.{no_notes};

use crate::kind::Kind;

// The kind of the last record; by class row how many instance fields are its own; by method row the offset of its record.
#[derive(Drop)]
pub struct Notes {
    pub last: Option<Kind>,
    pub own: [u8; 33],
    pub places: [usize; 129],
}

// Before the first record.
impl Default for Notes {
    fn default() -> Notes
        ensures { result ≡ no_notes }
    {
        Notes {
            last: None,
            own: [0u8; 33],
            places: [0usize; 129],
        }
    }
}

impl Notes {
    // Whether the last record was the entry.
    pub fn ended(&self) -> bool
        ensures { result ≡ eqb (last_byte self.now.last) 6 }
    {
        matches!(self.last, Some(Kind::Entry))
    }
}
