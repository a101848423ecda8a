// Record by record: each kind to its own rules.
ghost use Rattle.std.specs.Prelude.{◌≡◌, List, ℕ, ◌+◌, ◌<◌, length, drop, IfOk, ⊤};
ghost use Rattle.model.specs.Answer.{or_else};
ghost use Rattle.model.specs.Loading.{Loading as LoadingOf, nothing as nothing_of, body_bytes, one_record, read_record, records as records_of};
ghost use Rattle.loaded.specs.Holds.{nothing as nothing_loaded};
ghost use Rattle.loader.specs.Answers.{Answers};
ghost use Rattle.loader.specs.Kinds.{kind_byte};
ghost use Rattle.loader.specs.Body.{Whole};
ghost use Rattle.loader.specs.Stands.{Stands, no_notes, Leads, Passes, Fine, Small};

use crate::class::class_record;
use crate::entry::entry_record;
use crate::field::field_record;
use crate::kind::Kind;
use crate::method::{method_record, read_body};
use crate::notes::Notes;
use crate::refusal::Refusal;
use crate::variable::{Variable, variable_record};
use loaded::{Fault, Loaded};

// The record of a kind at an offset; its bytes are there.
fn one_record(
    tables: &[u8],
    at: usize,
    kind: Kind,
    code: usize,
    loaded: &mut Loaded,
    notes: &mut Notes,
) -> Result<(), Refusal>
    requires fine { Fine loaded.old.counts }
    requires small { Small notes.old.own }
    requires at_inside { at + or_else (body_bytes (kind_byte kind)) 0 < length tables.now }
    ensures { (buffer : List ℕ) (L : LoadingOf) → code ≡ length buffer → Stands buffer L loaded.old notes.old
        → Leads buffer (one_record buffer L at (kind_byte kind) (drop 1 (drop at tables.now))) result
        loaded.new notes.new }
{
    let first = tables[at + 1];
    match kind {
        Kind::Class => class_record(loaded, notes, first),
        Kind::Field => field_record(loaded, notes, first, tables[at + 2], tables[at + 3]),
        Kind::Method => method_record(loaded, notes, read_body(tables, at), at, code),
        Kind::Parameter => variable_record(loaded, notes, Variable::Parameter, first),
        Kind::Local => variable_record(loaded, notes, Variable::Local, first),
        Kind::Entry => entry_record(loaded, notes, first),
    }
}

// The kind of the record at an offset, of which every byte is there.
fn whole(tables: &[u8], at: usize) -> Result<Kind, Refusal>
    requires { at < length tables.now }
    ensures { Whole tables.now at result }
{
    let kind = Kind::try_from(tables[at])?;
    if tables.len() - at <= kind.size() {
        return Err(Refusal::BadRecord);
    }
    Ok(kind)
}

// The record at an offset, and the offset behind it.
fn read_record(
    tables: &[u8],
    at: usize,
    code: usize,
    loaded: &mut Loaded,
    notes: &mut Notes,
) -> Result<usize, Refusal>
    requires fine { Fine loaded.old.counts }
    requires small { Small notes.old.own }
    requires at_inside { at < length tables.now }
    ensures ahead { IfOk result (λ next. at < next) }
    ensures as_model { (buffer : List ℕ) (L : LoadingOf) → code ≡ length buffer → Stands buffer L loaded.old notes.old
        → Passes buffer (read_record buffer L at (drop at tables.now)) at result loaded.new notes.new }
{
    let kind = whole(tables, at)?;
    one_record(tables, at, kind, code, loaded, notes)?;
    Ok(at + kind.size() + 1)
}

// The records one after the other, up to the first that is refused.
pub fn read_records(
    tables: &[u8],
    code: &[u8],
    loaded: &mut Loaded,
    notes: &mut Notes,
) -> Result<(), Fault>
    requires nothing_yet { loaded.old ≡ nothing_loaded }
    requires no_notes { notes.old ≡ no_notes }
    ensures { Answers (records_of (length tables.now) tables.now code.now 0 nothing_of) result ⊤
        (λ u L. Stands code.now L loaded.new notes.new) }
{
    let mut at = 0;
    // Stays: how long a record is shows only once it is read, so no range or iterator has its offsets.
    while at < tables.len() {
        match read_record(tables, at, code.len(), loaded, notes) {
            Ok(next) => at = next,
            Err(refusal) => return Err(refusal.at(at)),
        }
    }
    Ok(())
}
