// What the check notes of a method.
ghost use Rattle.visits.specs.Notes.{Ready};

use shapes::shape::Pool;

// By offset, the length of the instruction that starts there and the number of the shape found before it, 0 where there is none; and the pool of shapes.
#[derive(Drop)]
pub struct Notes {
    pub starts: [u8; 1024],
    pub found: [u16; 1024],
    pub pool: Pool,
}

// The method that is checked: its row, its max stack and the length of its code.
#[derive(Clone, Copy)]
pub struct Body {
    pub row: usize,
    pub max: u8,
    pub size: usize,
}

impl Notes {
    pub fn new() -> Notes
        ensures { Ready result.found result.pool }
    {
        Notes {
            starts: [0u8; 1024],
            found: [0u16; 1024],
            pool: Pool::new(),
        }
    }
}
