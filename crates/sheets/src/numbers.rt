// The numbers that the fields of a record say. 0 for what says none, as the rules have it: a record with such a field is
// refused before.
ghost use Rattle.std.specs.Prelude.{◌≡◌};
ghost use Rattle.names.specs.Spellings.{spellings};
ghost use Rattle.sheets.specs.Numbers.{number_at, formed, permission_number_lem};

use crate::sheet::Sheet;
use forms::Form;
use kinds::Column;

impl Sheet<'_> {
    // The number that the field at a place says: of a declared name its number, of a number itself; else 0.
    pub fn number(&self, form: &Form<'_, '_>, place: usize) -> u32
        ensures { result ≡ number_at (spellings self.now.names) form.now.kind form.now.values place }
    {
        match form.column(place) {
            Column::Known(table) => self.names.find(table, form.value_at(place)).unwrap_or(0),
            Column::Number => form.number_at(place),
            Column::New(_) | Column::Flag => 0,
        }
    }

    // The permission that device and operation form, where the kind needs one.
    pub(crate) fn formed(&self, form: &Form<'_, '_>) -> Option<u32>
        ensures { result ≡ formed (spellings self.now.names) self.now.draft form.now.kind form.now.values }
    {
        let place = form.kind().permission_place()?;
        let device = self.number(form, place);
        let operation = self.number(form, place + 1);
        self.draft.permission_number(device, operation)
    }

    // The number of that permission; 0 where there is none, or the kind needs none.
    pub fn permission(&self, form: &Form<'_, '_>) -> u32
        ensures { result ≡ permission_number_lem (spellings self.now.names) self.now.draft form.now.kind form.now.values }
    {
        self.formed(form).unwrap_or(0)
    }
}
