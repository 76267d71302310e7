ghost use Rattle.sheets.specs.Sheets.{MadeSheet};

use crate::sheet::Sheet;
use names::Names;
use refusals::Refusal;
use tables::Draft;
use values::Name;

impl<'a> Sheet<'a> {
    // No name declared, and an empty draft; refused where the memory has fewer places than there can be names.
    pub fn new(memory: &'a mut [Name]) -> Result<Sheet<'a>, Refusal>
        ensures { MadeSheet memory.old result }
    {
        let names = Names::new(memory)?;
        Ok(Sheet {
            names,
            draft: Draft::new(),
        })
    }
}
