// A state in which nothing is.
ghost use Rattle.std.specs.Prelude.{◌≡◌};
ghost use Rattle.state.specs.Layout.{no_state};

use crate::State;

impl State {
    // No frame is live, and every cell is 0.
    pub fn new() -> State
        ensures { result ≡ no_state }
    {
        State {
            live: 0,
            cells: [0u64; 2048],
            kinds: [0u8; 2048],
            statics: [0u64; 64],
            marks: [0u8; 33],
            classes: [0u8; 256],
            heap: [0u64; 2048],
        }
    }

    // Whatever was there, no frame is live and every cell is 0 now.
    pub fn clear(&mut self)
        ensures { self.new ≡ no_state }
    {
        self.live = 0;
        self.cells = [0u64; 2048];
        self.kinds = [0u8; 2048];
        self.statics = [0u64; 64];
        self.marks = [0u8; 33];
        self.classes = [0u8; 256];
        self.heap = [0u64; 2048];
    }
}
