// Whether a value fits a declared type.
ghost use Rattle.std.specs.Prelude.{◌≡◌, ◌<◌};
ghost use Rattle.state.specs.View.{kind_of_byte};
ghost use Rattle.state.specs.Work.{refers_w, fits_w};
ghost use Rattle.state.specs.Meets.{Placed};

// A byte as an index.
pub fn wide(x: u8) -> usize
    ensures { (result ≡ x) × (result < 256) }
{
    x as usize
}

// Whether a reference is null, or the set of its object's class has a number: the row of a class, or the byte of its type.
pub fn refers(classes: &[u8; 256], ancestors: &[u64; 33], bits: u64, number: u8) -> bool
    requires { Placed classes.now }
    ensures { result ≡ refers_w ancestors.now classes.now bits number }
{
    let place = std::num::wrapping_sub_u64(bits, 1);
    if 255 < place {
        return bits == 0;
    }
    let class = wide(classes[place as usize]);
    (ancestors[class] >> ((number % 64) as u64)) % 2 == 1
}

// Whether bits of a kind fit the type of a byte. A type of its own kind is not looked up.
pub fn fits(classes: &[u8; 256], ancestors: &[u64; 33], kind: u8, bits: u64, byte: u8) -> bool
    requires { Placed classes.now }
    ensures { result ≡ fits_w ancestors.now classes.now kind bits byte }
{
    if kind == byte {
        return true;
    }
    if byte <= 3 {
        return false;
    }
    if kind != 0 {
        return false;
    }
    refers(classes, ancestors, bits, byte)
}

// The kind of a declared type's byte: a class is a reference.
pub fn kind_of(byte: u8) -> u8
    ensures { result ≡ kind_of_byte byte }
{
    if 3 < byte { 0 } else { byte }
}
