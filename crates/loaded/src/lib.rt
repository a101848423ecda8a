// A loaded module in flat arrays, indexed by row, that the check and the machine use without reading the tables again; and what every layer says of a fault.
#![tactic(auto)]

ghost use Rattle.std.specs.Prelude.{◌≡◌};
ghost use Rattle.loaded.specs.Holds.{nothing as nothing_of};

pub mod columns; // what stands where in a row

// A fault: its number and its place. A refusal of loading has method 0, and the place in the tables as offset.
// Stays: the number is document 01's, which the C interface hands out.
#[derive(Clone, Copy)]
pub struct Fault {
    pub number: u8,
    pub method: usize,
    pub offset: usize,
}

// How many rows of each kind a module has, and the row of its entry.
#[derive(Clone, Copy)]
pub struct Counts {
    pub classes: usize,
    pub fields: usize,
    pub statics: usize,
    pub methods: usize,
    pub entry: usize,
}

// A loaded module. Row 0 of each array, and every row past the last, is 0.
#[derive(Drop)]
pub struct Loaded {
    pub counts: Counts,
    // by class row
    pub parents: [u8; 33],
    pub initialisers: [u8; 33],
    // 4 for each field row
    pub fields: [u8; 516],
    // 32 for each method row: the types of 8 arguments with `this` and of 16 locals, then 8 columns
    pub methods: [u8; 4128],
    // 2 for each method row: offset and length of its code
    pub parts: [usize; 258],
}

// A module in which all is 0.
impl Default for Loaded {
    fn default() -> Loaded
        ensures { result ≡ nothing_of }
    {
        Loaded {
            counts: Counts {
                classes: 0,
                fields: 0,
                statics: 0,
                methods: 0,
                entry: 0,
            },
            parents: [0u8; 33],
            initialisers: [0u8; 33],
            fields: [0u8; 516],
            methods: [0u8; 4128],
            parts: [0usize; 258],
        }
    }
}
