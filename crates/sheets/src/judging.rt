// The reasons for which a record of a known kind is refused before it does anything.
ghost use Rattle.std.specs.Prelude.{◌≡◌};
ghost use Rattle.refusals.specs.Said.{said};
ghost use Rattle.names.specs.Spellings.{spellings};
ghost use Rattle.refusals.specs.declared.answer.Answer.TheVariants.{Accepted};
ghost use Rattle.rules.specs.Judging.{first_reason};
ghost use Rattle.sheets.specs.Judging.{known_at, all_named, all_known, permitted, already, grows, is_full_lem, record_tests};

use crate::sheet::Sheet;
use forms::Form;
use kinds::{Column, Kind, NameTable};
use records::Record;
use refusals::Refusal;
use tables::{Table, Thing};

// The list that an accepted record of the kind makes longer.
fn grows(kind: Kind) -> Option<Table>
    ensures { result ≡ grows kind }
{
    match kind {
        Kind::Declare(thing) => Some(Table::Things(thing)),
        Kind::Permission => Some(Table::Permissions),
        Kind::RolePair => Some(Table::RolePairs),
        Kind::Entry => Some(Table::Entries),
        Kind::Relate(_) | Kind::Ask(_) => None,
    }
}

impl Sheet<'_> {
    // Whether the name at a place is declared, where its column wants a declared name.
    fn is_known(&self, form: &Form<'_, '_>, place: usize) -> bool
        ensures { result ≡ known_at (spellings self.now.names) form.now.kind form.now.values place }
    {
        match form.column(place) {
            Column::Known(table) => self.names.find(table, form.value_at(place)).is_some(),
            Column::New(_) | Column::Number | Column::Flag => true,
        }
    }

    // Whether all of them are.
    fn knows_names(&self, form: &Form<'_, '_>) -> bool
        ensures { result ≡ all_named (spellings self.now.names) form.now.kind form.now.values }
    {
        (0..form.places()).all(|place| self.is_known(form, place))
    }

    // Whether all is declared that the record speaks of.
    fn knows_all(&self, form: &Form<'_, '_>) -> bool
        ensures { result ≡ all_known (spellings self.now.names) self.now.draft form.now.kind form.now.values }
    {
        self.knows_names(form)
            && (form.kind().permission_place().is_none() || self.formed(form).is_some())
    }

    // Whether the permission of a record `P` is declared. Each of its names is looked up once.
    fn is_permitted(&self, form: &Form<'_, '_>) -> bool
        ensures { result ≡ permitted (spellings self.now.names) self.now.draft form.now.values }
    {
        let devices = NameTable::Things(Thing::Device);
        let Some(device) = self.names.find(devices, form.value_at(0)) else {
            return false;
        };
        let operations = NameTable::Things(Thing::Operation);
        let Some(operation) = self.names.find(operations, form.value_at(1)) else {
            return false;
        };
        self.draft.permission_number(device, operation).is_some()
    }

    // Whether what the record declares is declared already.
    fn has_already(&self, form: &Form<'_, '_>) -> bool
        ensures { result ≡ already (spellings self.now.names) self.now.draft form.now.kind form.now.values }
    {
        let table = match form.kind() {
            Kind::Declare(thing) => NameTable::Things(thing),
            Kind::RolePair => NameTable::RolePairs,
            Kind::Permission => return self.is_permitted(form),
            Kind::Entry | Kind::Relate(_) | Kind::Ask(_) => return false,
        };
        self.names.find(table, form.value_at(0)).is_some()
    }

    // Whether the list that the record would make longer is full.
    fn is_full(&self, kind: Kind) -> bool
        ensures { result ≡ is_full_lem self.now.draft kind }
    {
        let draft = &self.draft;
        grows(kind).is_some_and(|table| table.limit() <= draft.count(table))
    }

    // Whether a record may do what it says: `whole` tells its place and the number of all its fields.
    pub fn check(&self, whole: Record, form: &Form<'_, '_>) -> Result<(), Refusal>
        ensures { said result ≡ first_reason (record_tests (spellings self.now.names) self.now.draft form.now.kind whole.start whole.count form.now.values) Accepted }
    {
        let at = whole.start;
        let kind = form.kind();
        if !kind.takes(whole.count) {
            return Err(Refusal::WrongFieldCount { at });
        }
        if !form.is_spelt() {
            return Err(Refusal::BadlyWritten { at });
        }
        if self.has_already(form) {
            return Err(Refusal::AlreadyDeclared { at });
        }
        if !self.knows_all(form) {
            return Err(Refusal::NotDeclared { at });
        }
        if self.is_full(kind) {
            return Err(Refusal::TableFull { at });
        }
        Ok(())
    }
}
