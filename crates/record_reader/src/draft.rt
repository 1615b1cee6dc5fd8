//! What the lines so far have given.

ghost use Rattle.std.specs.Prelude.{◌≡◌, IfOk, OnOk, ◌++◌, ◌∷◌, [], pred};
ghost use Rattle.undo_records.specs.Walk.{after};
ghost use Rattle.record_reader.specs.Progress.{start, columns_left, reads_left, records_left, rows_left, without_transaction};
ghost use Rattle.record_reader.specs.Faults.{ends_at};
ghost use Rattle.record_reader.specs.Results.{seen, TakesAt, Takes};
ghost use Rattle.record_reader.specs.declared.stages.Stage.TheVariants.{Header, SenseLine, DualsLine, ColumnCount, Columns, RowCount, Rows, Offset, RecordCount, Reads, Undos, End, Over};
ghost use Rattle.record_reader.specs.declared.stages.Stage.TheVariants as stage;

use crate::faults::{RecordFaultKind, TakeError, kind_of};
use crate::headings::{count_of, duals_of, is_end, offset_of, sense_of, version_of};
use crate::labels::label_of;
use crate::stages::{Stage, columns_left, reads_left, records_left, rows_left};
use crate::transaction_lines::{heading_of, part_read_of};
use fractions::frac::Frac;
use lp_model::Sense;
use record_values::TextVersion;
use record_words::{LineError, read_undo};
use std::alloc::{AllocError, Global};
use undo_records::{Label, Transactions, Undo, Walk};

/// What the lines so far have given, what the next one has to be, and what is live behind them.
#[derive(Drop)]
pub struct Draft {
    pub stage: Stage,
    pub version: TextVersion,
    pub sense: Sense,
    pub duals: bool,
    pub columns: Vec<Label>,
    pub rows: Vec<Label>,
    pub offset: Frac,
    pub undos: Vec<Undo>,
    pub transactions: Transactions,
    pub walk: Walk,
}

/// The fewest bytes that the line of a label or a record has, its line feed among them.
const LEAST_LINE: usize = 5;

/// Makes room for so many more, but for no more than so many bytes of text can hold. Without memory for it there is none: the items then
/// take their room one after another.
fn make_room<T>(items: &mut Vec<T>, count: u64, bytes: usize)
    ensures { items.new.items ≡ items.old.items }
{
    let most = bytes / LEAST_LINE;
    let _ = items.reserve_exact(count.min(most as u64) as usize);
}

/// Puts a label behind others.
fn push_label(labels: &mut Vec<Label>, label: Label) -> Result<(), AllocError>
    ensures { OnOk result (labels.new.items ≡ labels.old.items ++ label ∷ []) }
{
    labels.push(label)?;
    Ok(())
}

/// Puts a record behind others.
fn push_undo(undos: &mut Vec<Undo>, undo: Undo) -> Result<(), AllocError>
    ensures { OnOk result (undos.new.items ≡ undos.old.items ++ undo ∷ []) }
{
    undos.push(undo)?;
    Ok(())
}

impl Draft {
    /// Nothing yet.
    pub fn new(alloc: Global) -> Result<Draft, AllocError>
        ensures { IfOk result (λ draft. seen draft ≡ start) }
    {
        Ok(Draft {
            stage: Stage::Header,
            version: TextVersion::First,
            sense: Sense::Min,
            duals: false,
            columns: Vec::new(alloc),
            rows: Vec::new(alloc),
            offset: Frac::zero(),
            undos: Vec::new(alloc),
            transactions: Transactions::new(alloc),
            walk: Walk::new(alloc, 0, 0)?,
        })
    }

    fn take_header(&mut self, line: &[u8]) -> Result<(), TakeError>
        ensures { TakesAt Header (seen self.old) line.now result (seen self.new) }
    {
        let Some(version) = version_of(line) else {
            return Err(TakeError::Fault(RecordFaultKind::BadHeader));
        };
        self.version = version;
        self.stage = Stage::SenseLine;
        Ok(())
    }

    fn take_sense(&mut self, line: &[u8]) -> Result<(), TakeError>
        ensures { TakesAt SenseLine (seen self.old) line.now result (seen self.new) }
    {
        let Some(sense) = sense_of(line) else {
            return Err(TakeError::Fault(RecordFaultKind::BadLine));
        };
        self.sense = sense;
        self.stage = Stage::DualsLine;
        Ok(())
    }

    fn take_duals(&mut self, line: &[u8]) -> Result<(), TakeError>
        ensures { TakesAt DualsLine (seen self.old) line.now result (seen self.new) }
    {
        let Some(duals) = duals_of(line) else {
            return Err(TakeError::Fault(RecordFaultKind::BadLine));
        };
        self.duals = duals;
        self.stage = Stage::ColumnCount;
        Ok(())
    }

    fn take_column_count(&mut self, line: &[u8], left: usize) -> Result<(), TakeError>
        ensures { TakesAt ColumnCount (seen self.old) line.now result (seen self.new) }
    {
        let Some(count) = count_of(b"columns ", line) else {
            return Err(TakeError::Fault(RecordFaultKind::BadLine));
        };
        make_room(&mut self.columns, count, left);
        self.stage = columns_left(count);
        Ok(())
    }

    fn take_column(&mut self, alloc: Global, left: u64, line: &[u8]) -> Result<(), TakeError>
        ensures { TakesAt (Columns left) (seen self.old) line.now result (seen self.new) }
    {
        let Some(label) = label_of(alloc, line)? else {
            return Err(TakeError::Fault(RecordFaultKind::BadLine));
        };
        push_label(&mut self.columns, label)?;
        self.stage = columns_left(left.saturating_sub(1));
        Ok(())
    }

    fn take_row_count(&mut self, line: &[u8], left: usize) -> Result<(), TakeError>
        ensures { TakesAt RowCount (seen self.old) line.now result (seen self.new) }
    {
        let Some(count) = count_of(b"rows ", line) else {
            return Err(TakeError::Fault(RecordFaultKind::BadLine));
        };
        make_room(&mut self.rows, count, left);
        self.stage = rows_left(count);
        Ok(())
    }

    fn take_row(&mut self, alloc: Global, left: u64, line: &[u8]) -> Result<(), TakeError>
        ensures { TakesAt (Rows left) (seen self.old) line.now result (seen self.new) }
    {
        let Some(label) = label_of(alloc, line)? else {
            return Err(TakeError::Fault(RecordFaultKind::BadLine));
        };
        push_label(&mut self.rows, label)?;
        self.stage = rows_left(left.saturating_sub(1));
        Ok(())
    }

    fn take_offset(&mut self, alloc: Global, line: &[u8]) -> Result<(), TakeError>
        ensures { TakesAt Offset (seen self.old) line.now result (seen self.new) }
    {
        match offset_of(alloc, line) {
            Ok(offset) => {
                self.offset = offset;
                self.stage = Stage::RecordCount;
                Ok(())
            }
            Err(LineError::Fault(fault)) => Err(TakeError::Fault(kind_of(fault))),
            Err(LineError::NoMemory) => Err(TakeError::NoMemory),
        }
    }

    fn take_record_count(
        &mut self,
        alloc: Global,
        line: &[u8],
        left: usize,
    ) -> Result<(), TakeError>
        ensures { TakesAt RecordCount (seen self.old) line.now result (seen self.new) }
    {
        let Some(count) = count_of(b"records ", line) else {
            return Err(TakeError::Fault(RecordFaultKind::BadLine));
        };
        self.walk = Walk::new(alloc, self.rows.len(), self.columns.len())?;
        make_room(&mut self.undos, count, left);
        self.stage = records_left(self.version, count);
        Ok(())
    }

    fn take_transaction(&mut self, left: u64, line: &[u8]) -> Result<(), TakeError>
        ensures { TakesAt (stage.Transactions left) (seen self.old) line.now result (seen self.new) }
    {
        match heading_of(self.undos.len() as u64 + 1, line) {
            Ok(heading) => {
                self.transactions.open(heading.by, heading.version)?;
                self.stage = reads_left(left, heading.reads);
                Ok(())
            }
            Err(kind) => Err(TakeError::Fault(kind)),
        }
    }

    fn take_read(&mut self, records: u64, left: u64, line: &[u8]) -> Result<(), TakeError>
        ensures { TakesAt (Reads records left) (seen self.old) line.now result (seen self.new) }
    {
        match part_read_of(self.rows.len(), self.columns.len(), line) {
            Ok(read) => {
                self.transactions.add(read)?;
                self.stage = reads_left(records, left.saturating_sub(1));
                Ok(())
            }
            Err(kind) => Err(TakeError::Fault(kind)),
        }
    }

    /// In the first version nothing is known of a record's transaction.
    fn tell_nothing(&mut self) -> Result<(), AllocError>
        ensures { OnOk result (seen self.new ≡ without_transaction (seen self.old)) }
    {
        match self.version {
            TextVersion::First => self.transactions.open(0, 0),
            TextVersion::Second => Ok(()),
        }
    }

    fn take_undo(&mut self, alloc: Global, left: u64, line: &[u8]) -> Result<(), TakeError>
        ensures { TakesAt (Undos left) (seen self.old) line.now result (seen self.new) }
    {
        match read_undo(alloc, &self.walk, line) {
            Ok(undo) => {
                self.walk.step(&undo);
                push_undo(&mut self.undos, undo)?;
                self.tell_nothing()?;
                self.stage = records_left(self.version, left.saturating_sub(1));
                Ok(())
            }
            Err(LineError::Fault(fault)) => Err(TakeError::Fault(kind_of(fault))),
            Err(LineError::NoMemory) => Err(TakeError::NoMemory),
        }
    }

    /// Whether the labels say what the records have left.
    fn has_ended(&self) -> bool
        ensures { result ≡ ends_at (seen self.now).live (seen self.now).given }
    {
        self.walk
            .ends_at(self.columns.as_slice(), self.rows.as_slice())
    }

    fn take_end(&mut self, line: &[u8]) -> Result<(), TakeError>
        ensures { TakesAt End (seen self.old) line.now result (seen self.new) }
    {
        if !is_end(line) {
            return Err(TakeError::Fault(RecordFaultKind::BadLine));
        }
        if !self.has_ended() {
            return Err(TakeError::Fault(RecordFaultKind::BadId));
        }
        self.stage = Stage::Over;
        Ok(())
    }

    /// Takes in a line, behind which so many bytes are left, or says what is wrong with it.
    #[tactic(auto, unfolding(crate::specs::Faults::line_fault, crate::specs::Progress::moved))]
    pub fn take_line(&mut self, alloc: Global, line: &[u8], left: usize) -> Result<(), TakeError>
        ensures { Takes (seen self.old) line.now result (seen self.new) }
    {
        match self.stage {
            Stage::Header => self.take_header(line),
            Stage::SenseLine => self.take_sense(line),
            Stage::DualsLine => self.take_duals(line),
            Stage::ColumnCount => self.take_column_count(line, left),
            Stage::Columns(count) => self.take_column(alloc, count, line),
            Stage::RowCount => self.take_row_count(line, left),
            Stage::Rows(count) => self.take_row(alloc, count, line),
            Stage::Offset => self.take_offset(alloc, line),
            Stage::RecordCount => self.take_record_count(alloc, line, left),
            Stage::Transactions(count) => self.take_transaction(count, line),
            Stage::Reads(records, count) => self.take_read(records, count, line),
            Stage::Undos(count) => self.take_undo(alloc, count, line),
            Stage::End => self.take_end(line),
            Stage::Over => Err(TakeError::Fault(RecordFaultKind::BadLine)),
        }
    }
}
