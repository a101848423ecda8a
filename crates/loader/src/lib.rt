// Loading: house tables to a module in flat arrays, indexed by row, that the check and the machine use without reading the tables again.
#![tactic(auto)]

mod numbers; // limits, sorts, types
mod refusal; // why a module is refused, and where
mod kind; // kinds of records, and which may follow which
mod notes; // what reading keeps beside the module
mod ranges; // rows and types
mod class; // a class record
mod field; // a field record
mod overriding; // the rule on an overridden row, and roots
mod method; // a method record
mod variable; // a parameter or a local record
mod entry; // the entry record
mod records; // the record of each kind, and all of them
mod after_last; // overrides, after the last record

ghost use Rattle.std.specs.Prelude.{◌≡◌, ◌&&◌, not, leb, length, ⊤};
ghost use Rattle.model.specs.Tables.{most_tables, most_code};
ghost use Rattle.model.specs.Loading.{load as load_of};
ghost use Rattle.loaded.specs.Holds.{Holds, nothing as nothing_of};
ghost use Rattle.loader.specs.Answers.{Answers};

use crate::after_last::first_differing;
use crate::notes::Notes;
use crate::records::read_records;
use crate::refusal::Refusal;
use loaded::columns::{CLASS_ROWS, FIELD, FIELD_ROWS, METHOD, METHOD_ROWS, PART};
use loaded::{Counts, Fault, Loaded};

// Whether the tables or the code are longer than they may be.
fn too_long(tables: &[u8], code: &[u8]) -> bool
    ensures { result ≡ not (leb (length tables.now) most_tables && leb (length code.now) most_code) }
{
    numbers::MOST_TABLES < tables.len() || numbers::MOST_CODE < code.len()
}

// Reads tables and code into a module in which all is 0: the limits of both, record by record, the missing entry, then overrides.
fn read_into(tables: &[u8], code: &[u8], loaded: &mut Loaded) -> Result<(), Fault>
    requires { loaded.old ≡ nothing_of }
    ensures { Answers (load_of tables.now code.now) result ⊤ (λ u M. Holds M code.now loaded.new) }
{
    if too_long(tables, code) {
        return Err(Refusal::TooLong.at(0));
    }
    let mut notes = Notes::default();
    read_records(tables, code, loaded, &mut notes)?;
    if !notes.ended() {
        return Err(Refusal::Order.at(tables.len()));
    }
    match first_differing(&loaded.methods, loaded.counts.methods) {
        Some(row) => Err(Refusal::Override.at(notes.places[row])),
        None => Ok(()),
    }
}

// Whatever was in the module, all of it is 0 now.
fn clear(loaded: &mut Loaded)
    ensures { loaded.new ≡ nothing_of }
{
    loaded.counts = Counts {
        classes: 0,
        fields: 0,
        statics: 0,
        methods: 0,
        entry: 0,
    };
    loaded.parents = [0u8; CLASS_ROWS];
    loaded.initialisers = [0u8; CLASS_ROWS];
    loaded.fields = [0u8; FIELD_ROWS * FIELD];
    loaded.methods = [0u8; METHOD_ROWS * METHOD];
    loaded.parts = [0usize; METHOD_ROWS * PART];
}

// Loads tables and code into a lent module, whatever it held; after a refusal all of it is 0.
pub fn load_into(tables: &[u8], code: &[u8], loaded: &mut Loaded) -> Result<(), Fault>
    ensures { Answers (load_of tables.now code.now) result (loaded.new ≡ nothing_of) (λ u M. Holds M code.now loaded.new) }
{
    clear(loaded);
    match read_into(tables, code, loaded) {
        Ok(()) => Ok(()),
        Err(refusal) => {
            clear(loaded);
            Err(refusal)
        }
    }
}

// Loads tables and code.
pub fn load(tables: &[u8], code: &[u8]) -> Result<Loaded, Fault>
    ensures { Answers (load_of tables.now code.now) result ⊤ (λ L M. Holds M code.now L) }
{
    let mut loaded = Loaded::default();
    read_into(tables, code, &mut loaded)?;
    Ok(loaded)
}
