// The entry record, and what the entry may be.
ghost use Rattle.std.specs.Prelude.{◌≡◌, List, ℕ, ◌+◌, ◌≤◌, ◌<◌, length, ◌↔◌, IsTrue, EachIndex, slice_index};
ghost use Rattle.model.specs.Loading.{Loading as LoadingOf, all, entry_record};
ghost use Rattle.loader.specs.Rules.{EntryRule};
ghost use Rattle.loader.specs.Stands.{MethodCells, Sound, Stands, Leads, Fine};
ghost use Rattle.loader.specs.Kinds.{last_byte};
ghost use Rattle.loader.specs.Allowed.{entry_allowed};

use crate::kind::Kind;
use crate::notes::Notes;
use crate::numbers;
use crate::ranges::is_row;
use crate::refusal::Refusal;
use loaded::Loaded;
use loaded::columns::{ARGUMENT_COUNT, LOCALS, METHOD, RETURN, SORT};

// Whether types are int32 or int64.
fn integers(types: &[u8]) -> bool
    ensures { IsTrue result ↔ EachIndex types.now (λ k. (0 < slice_index types.now k) × (slice_index types.now k ≤ 2)) }
{
    types
        .iter()
        .all(|t| numbers::VOID < *t && *t <= numbers::INT64)
}

// The entry is static, with int32 or int64 parameters and no class as return type.
fn entry_fits(methods: &[u8; 4128], n: usize, r: u8) -> bool
    requires { n ≤ 128 }
    ensures { (code : List ℕ) (L : LoadingOf) → n ≡ length L.methods → Sound code L.methods
        → MethodCells L.methods methods.now
        → EntryRule L r result }
{
    let row = r as usize;
    if n < row {
        return false;
    }
    let base = row * METHOD;
    if methods[base + SORT] != numbers::STATIC {
        return false;
    }
    if numbers::OBJECT <= methods[base + RETURN] {
        return false;
    }
    let count = LOCALS.min(methods[base + ARGUMENT_COUNT] as usize);
    integers(&methods[base..base + count])
}

// Whether the entry record is taken; `fits` is the rule on the entry.
fn entry_allowed(last: Option<Kind>, methods: usize, r: u8, fits: bool) -> Result<(), Refusal>
    ensures { result ≡ entry_allowed (last_byte last) methods r fits }
{
    if !Kind::Entry.follows(last) {
        return Err(Refusal::Order);
    }
    if !is_row(methods, r) {
        return Err(Refusal::Range);
    }
    if !fits {
        return Err(Refusal::Rule);
    }
    Ok(())
}

pub fn entry_record(loaded: &mut Loaded, notes: &mut Notes, r: u8) -> Result<(), Refusal>
    requires { Fine loaded.old.counts }
    ensures { (code : List ℕ) (L : LoadingOf) → Stands code L loaded.old notes.old
        → Leads code (entry_record L r) result loaded.new notes.new }
{
    let n = loaded.counts.methods;
    let fits = entry_fits(&loaded.methods, n, r);
    entry_allowed(notes.last, n, r, fits)?;
    loaded.counts.entry = r as usize;
    notes.last = Some(Kind::Entry);
    Ok(())
}
