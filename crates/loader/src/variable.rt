// A parameter or a local record, of the method before it.
ghost use Rattle.std.specs.Prelude.{◌≡◌, List, ℕ};
ghost use Rattle.model.specs.Loading.{Loading as LoadingOf};
ghost use Rattle.loader.specs.Stands.{Stands, Leads, Fine};
ghost use Rattle.loader.specs.Kinds.{last_byte};
ghost use Rattle.loader.specs.Variables.{kind_of, count_of, column_of, most_of, barred as barred_of, variable_record};
ghost use Rattle.loader.specs.Allowed.{variable_allowed};

use crate::kind::Kind;
use crate::notes::Notes;
use crate::numbers;
use crate::ranges::type_fits;
use crate::refusal::Refusal;
use loaded::Loaded;
use loaded::columns::{ARGUMENT_COUNT, ARGUMENTS, LOCAL_COUNT, LOCALS, METHOD, SORT};

#[derive(Clone, Copy)]
pub enum Variable {
    Parameter,
    Local,
}

impl Variable {
    fn kind(self) -> Kind
        ensures { result ≡ kind_of self }
    {
        match self {
            Variable::Parameter => Kind::Parameter,
            Variable::Local => Kind::Local,
        }
    }

    // The column that counts them, parameters with `this`.
    fn counted(self) -> usize
        ensures { result ≡ count_of self }
    {
        match self {
            Variable::Parameter => ARGUMENT_COUNT,
            Variable::Local => LOCAL_COUNT,
        }
    }

    // The column of the one behind the first `count`.
    fn column(self, count: u8) -> usize
        ensures { result ≡ column_of self count }
    {
        match self {
            Variable::Parameter => ARGUMENTS + count as usize,
            Variable::Local => LOCALS + count as usize,
        }
    }

    fn most(self) -> u8
        ensures { result ≡ most_of self }
    {
        match self {
            Variable::Parameter => numbers::MOST_ARGUMENTS,
            Variable::Local => numbers::MOST_LOCALS,
        }
    }

    // Whether a method of a sort has none: an initialiser takes no parameters.
    fn barred(self, sort: u8) -> bool
        ensures { result ≡ barred_of self sort }
    {
        match self {
            Variable::Parameter => sort == numbers::INITIALISER,
            Variable::Local => false,
        }
    }

    // Whether one more is taken; `count` is how many there are.
    fn allowed(
        self,
        last: Option<Kind>,
        classes: usize,
        t: u8,
        count: u8,
        sort: u8,
    ) -> Result<(), Refusal>
        ensures { result ≡ variable_allowed self (last_byte last) classes t count sort }
    {
        if !self.kind().follows(last) {
            return Err(Refusal::Order);
        }
        if !type_fits(classes, t) {
            return Err(Refusal::Range);
        }
        if self.most() <= count {
            return Err(Refusal::TooMany);
        }
        if self.barred(sort) {
            return Err(Refusal::Rule);
        }
        Ok(())
    }
}

pub fn variable_record(
    loaded: &mut Loaded,
    notes: &mut Notes,
    v: Variable,
    t: u8,
) -> Result<(), Refusal>
    requires { Fine loaded.old.counts }
    ensures { (code : List ℕ) (L : LoadingOf) → Stands code L loaded.old notes.old
        → Leads code (variable_record v L t) result loaded.new notes.new }
{
    let base = loaded.counts.methods * METHOD;
    let counted = v.counted();
    let count = loaded.methods[base + counted];
    let sort = loaded.methods[base + SORT];
    v.allowed(notes.last, loaded.counts.classes, t, count, sort)?;
    let column = v.column(count);
    loaded.methods[base + counted] = count + 1;
    loaded.methods[base + column] = t;
    notes.last = Some(v.kind());
    Ok(())
}
