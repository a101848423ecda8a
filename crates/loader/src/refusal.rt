// Why a module is refused, and where.
ghost use Rattle.std.specs.Prelude.{◌≡◌};
ghost use Rattle.loader.specs.Refusals.{number_of, fault_of};

use loaded::Fault;

#[derive(Clone, Copy)]
pub enum Refusal {
    TooLong,
    BadRecord,
    Order,
    Range,
    TooMany,
    Rule,
    Override,
}

// A refusal's number in document 01.
impl From<Refusal> for u8 {
    ghost from_gives = { λ refusal number. number ≡ number_of refusal };

    fn from(refusal: Refusal) -> u8 {
        match refusal {
            Refusal::TooLong => 1,
            Refusal::BadRecord => 2,
            Refusal::Order => 3,
            Refusal::Range => 4,
            Refusal::TooMany => 5,
            Refusal::Rule => 6,
            Refusal::Override => 7,
        }
    }
}

impl Refusal {
    // The refusal at a place in the tables: a fault of method 0, with the place as offset.
    pub fn at(self, place: usize) -> Fault
        ensures { result ≡ fault_of (record { number = number_of self; place = place }) }
    {
        Fault {
            number: u8::from(self),
            method: 0,
            offset: place,
        }
    }
}
