// The start of a class by the access to one of its members.
ghost use Rattle.std.specs.Prelude.{◌≤◌};
ghost use Rattle.state.specs.Meets.{Few};
ghost use Rattle.fields.specs.Members.{Starts};

use state::fit::wide;

// The initialiser that comes before a class is used: none where the class is marked or has none.
pub fn first_due(marks: &[u8; 33], initialisers: &[u8; 33], class: usize) -> Option<usize>
    requires few { Few 128 initialisers.now }
    requires class_at_most { class ≤ 32 }
    ensures { Starts initialisers.now marks.now class result }
{
    if marks[class] != 0 {
        return None;
    }
    if initialisers[class] == 0 {
        return None;
    }
    Some(wide(initialisers[class]))
}
