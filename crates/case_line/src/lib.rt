// The answer line of a case of `replay`: the bytes of the case in, the bytes of the line out.
#![tactic(auto)]

mod answer; // loads, checks and runs, and says what came of it
mod parts; // the parts of the line
mod reading; // the parts of a case

ghost use Rattle.std.specs.Prelude.{◌≡◌};
ghost use Rattle.line.specs.Append.{Appended};
ghost use Rattle.case_line.specs.Case.{line_of};
ghost use Rattle.case_line.specs.Places.{announced_by};

use crate::answer::answer;
use crate::reading::{MOST_ARGUMENTS, fill, locate};
use code::little::little4;
use code::part::{after, part};
use line::text::Text;

// How long a case is by its first bytes, of which those that are missing count 0: bytes are a case where they are as many as they announce.
pub fn announced(case: &[u8]) -> usize
    ensures { result ≡ announced_by case.now }
{
    let places = locate(case);
    places.end
}

// The line of a case at the start of `out`, and how long it is: 0 for bytes that are no case, and more than `out` has where there is no room for it.
pub fn line(case: &[u8], out: &mut [u8]) -> usize
    ensures { Appended out.old 0 (line_of case.now) out.new result }
{
    let p = locate(case);
    let count = p.count;
    if case.len() != p.end {
        return 0;
    }
    let mut words = [0u64; MOST_ARGUMENTS];
    fill(&mut words, after(case, p.arguments), count);
    let mut text = Text::up_to(out, 0);
    answer(
        &mut text,
        part(case, reading::LENGTH, p.tables),
        part(case, p.code, p.size),
        &words[..count],
        little4(after(case, p.budget)),
    );
    text.end()
}
