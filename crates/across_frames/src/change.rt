// How a step went that changes the frame.
use state::Moved;

#[derive(Clone, Copy)]
pub enum Change {
    // the run goes on in another frame
    Moves(Moved),
    // the entry returned
    Over,
    // a class has to start first: the row of its initialiser
    Waits(usize),
}
