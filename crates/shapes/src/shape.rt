// Shapes by number: 0 is none, 1 the empty one, any other a type on top of an earlier shape.

ghost use Rattle.std.specs.Prelude.{◌≡◌, ◌%◌, ◌<◌, get_or};
ghost use Rattle.model.specs.Tables.{eq_tys};
ghost use Rattle.model.specs.Check.{Shape};
ghost use Rattle.shapes.specs.Pool.{Fine, Shows, grown};

// How many numbers there are, that of the empty shape, and the first that is free.
pub const SHAPES: u16 = 2048;

pub const EMPTY: usize = 1;

pub const FIRST: usize = 2;

// Of a shape, `tops` has the type on top, `belows` the shape under it, `heights` how many types it has; `made` numbers are in use.
#[derive(Drop)]
pub struct Pool {
    pub tops: [u8; 2048],
    pub belows: [u16; 2048],
    pub heights: [u8; 2048],
    pub made: usize,
}

impl Pool {
    // The pool with no shape but the empty one.
    pub fn new() -> Pool
        ensures fine { Fine result }
        ensures made { result.made ≡ 2 }
    {
        Pool {
            tops: [0; 2048],
            belows: [0; 2048],
            heights: [0; 2048],
            made: FIRST,
        }
    }

    // The shape under the top of a shape.
    pub fn below(&self, s: usize) -> usize
        requires { s < 2048 }
        ensures result_below { result < 2048 }
        ensures below { result ≡ get_or self.now.belows s 0 % 2048 }
    {
        (self.belows[s] % SHAPES) as usize
    }

    // A new shape, with a type on top of a shape.
    pub fn put(&mut self, s: usize, t: u8, h: u8) -> usize
        requires room { self.old.made < 2048 }
        requires s_below { s < 2048 }
        ensures result { result ≡ self.old.made }
        ensures pool { self.new ≡ grown self.old s t h }
    {
        let made = self.made;
        self.tops[made] = t;
        self.belows[made] = s as u16;
        self.heights[made] = h;
        self.made += 1;
        made
    }

    // Whether two shapes are the same.
    pub fn same(&self, a: usize, b: usize) -> bool
        requires a_below { a < 2048 }
        requires b_below { b < 2048 }
        ensures { (A B : Shape) → Fine self.now → Shows self.now A a → Shows self.now B b → result ≡ eq_tys A B }
    {
        let height = self.heights[a];
        if height != self.heights[b] {
            return false;
        }
        let mut x = a;
        let mut y = b;
        for _i in 0..height {
            if x == y {
                return true;
            }
            if self.tops[x] != self.tops[y] {
                return false;
            }
            x = self.below(x);
            y = self.below(y);
        }
        true
    }
}
