// What the steps that change the frame read.

// How many objects there are at most.
pub const OBJECTS: usize = 256;

// The sorts of methods beside the static ones. callvirt takes an instance method as it is named, and a virtual one as its object has it.
pub const INSTANCE: u8 = 1;

pub const VIRTUAL: u8 = 2;

pub const CONSTRUCTOR: u8 = 3;

pub const INITIALISER: u8 = 4;

#[derive(Clone, Copy)]
pub struct Tables<'a> {
    // how many methods there are
    pub count: usize,
    pub methods: &'a [u8; 4128],
    pub initialisers: &'a [u8; 33],
    pub ancestors: &'a [u64; 33],
    pub chosen: &'a [u8; 4257],
}
