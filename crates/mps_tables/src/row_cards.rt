//! Cards of ROWS.

use crate::faults::Stop;
use crate::tables::Tables;
use crate::words::kind_named;
use mps_profile::MpsFaultKind;
use names::Named;

impl Tables {
    ghost use Rattle.std.specs.Prelude.{List};
    ghost use Rattle.mps_profile.specs.Cards.{Card, RowCard};
    ghost use Rattle.mps_tables.specs.Tables.{Holds, Took};

    /// A row with its type.
    pub(crate) fn row(&mut self, kind: &[u8], name: &[u8]) -> Result<(), Stop>
        ensures { (cards : List Card) → Holds self.old.dialect cards self.old → Took self.old.dialect cards (RowCard kind.now name.now) result self.new }
    {
        match self.rows.insert(self.alloc, name)? {
            Named::Known(_) => return Err(Stop::Fault(MpsFaultKind::DuplicateName)),
            Named::Fresh(_) => {}
        }
        let Some(kind) = kind_named(kind) else {
            return Err(Stop::Fault(MpsFaultKind::BadRowType));
        };
        self.kinds.push(kind)?;
        Ok(())
    }
}
