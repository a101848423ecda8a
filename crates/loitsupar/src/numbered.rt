// An answer by numbers, as a host and a line of text are told it.
ghost use Rattle.std.specs.Prelude.{◌≡◌};
ghost use Rattle.loitsupar.specs.Public.{numbered};

use loaded::Fault;

// The fault of an answer: all 0 where there is none.
// Stays: 0 for none, as C and the lines of text are handed it (the C interface).
pub fn numbered<A>(answer: &Result<A, Fault>) -> Fault
    ensures { result ≡ numbered answer.now }
{
    match answer {
        Ok(_) => Fault {
            number: 0,
            method: 0,
            offset: 0,
        },
        Err(fault) => *fault,
    }
}
