//! What undoing a record makes of a pair is what the law of its reduction says, where the record has the program's numbers: so the
//! law of the reduction is one of the undoing.
//!
//! The functions do nothing when they run: each states a law, and its check proves it. A list of terms by ascending id stands for the
//! row or the column whose numbers it has. [`rows`] and [`columns`] state the laws of the reductions for their records, which `specs/`
//! defines.
#![tactic(auto)]

pub mod columns;
pub mod rows;

ghost use Rattle.std.specs.Prelude.{◌≡◌, ◌≢◌, ℕ, List, [], ◌∷◌, ◌++◌, length};
ghost use Rattle.fractions.specs.Number.{Number};
ghost use Rattle.lp_model.specs.LinearProgram.{LinearProgram};
ghost use Rattle.lp_model.specs.Sparse.{Ascends, dense};
ghost use Rattle.lp_model.specs.declared.program.Sense.{Sense};
ghost use Rattle.lp_model.specs.Reductions.{IsPriced, Priced, ReducesPairs};
ghost use Rattle.lp_model.specs.Vectors.{Vector, vector_of};
ghost use Rattle.undo_records.specs.declared.undo.Undo.{Undo};
ghost use Rattle.undo_records.specs.Lift.{lift, undone};
ghost use Rattle.lp_rows.specs.EmptyRow.{undo_empty_row};
ghost use Rattle.lp_rows.specs.RedundantRow.{undo_redundant_row};
ghost use Rattle.lp_rows.specs.SingletonRow.{undo_singleton_row};
ghost use Rattle.lp_rows.specs.ForcingRow.{undo_forced_at_lower_side, undo_forced_at_upper_side};
ghost use Rattle.lp_rows.specs.BoundTightening.{undo_lower_bound_tightened, undo_upper_bound_tightened};
ghost use Rattle.lp_rows.specs.ParallelRows.{undo_parallel_rows};
ghost use Rattle.lp_columns.specs.FixedColumn.{undo_fixed_column_pair};
ghost use Rattle.lp_columns.specs.ParallelColumns.{undo_parallel_columns_pair};
ghost use Rattle.lp_substitutions.specs.DoubletonEquation.{undo_doubleton_equation_pair};
ghost use Rattle.lp_substitutions.specs.FreeColumnSingleton.{undo_free_column_singleton_pair};
ghost use Rattle.lp_substitutions.specs.SlackColumnSingleton.{undo_slack_column_singleton_kept, undo_slack_column_singleton_dropped};
ghost use Rattle.undo_records.specs.declared.side.Side.TheVariants.{Lower, Upper};
ghost use Rattle.undo_records.specs.declared.side.RowFate.TheVariants.{Kept, Dropped};
ghost use Rattle.undo_records.specs.declared.kinds.row_record.RowRecord.{RowRecord};
ghost use Rattle.undo_records.specs.declared.kinds.singleton_row.SingletonRow.{SingletonRow};
ghost use Rattle.undo_records.specs.declared.kinds.fixed_column.FixedColumn.{FixedColumn};
ghost use Rattle.undo_records.specs.declared.kinds.column_record.ColumnRecord.{ColumnRecord};
ghost use Rattle.undo_records.specs.declared.kinds.forcing_row.ForcingRow.{ForcingRow};
ghost use Rattle.undo_records.specs.declared.kinds.bound_tightening.BoundTightening.{BoundTightening};
ghost use Rattle.undo_records.specs.declared.kinds.coefficient_tightening.CoefficientTightening.{CoefficientTightening};
ghost use Rattle.undo_records.specs.declared.kinds.dominated_column.DominatedColumn.{DominatedColumn};
ghost use Rattle.undo_records.specs.declared.kinds.doubleton_equation.DoubletonEquation.{DoubletonEquation};
ghost use Rattle.undo_records.specs.declared.kinds.free_column_singleton.FreeColumnSingleton.{FreeColumnSingleton};
ghost use Rattle.undo_records.specs.declared.kinds.slack_column_singleton.SlackColumnSingleton.{SlackColumnSingleton};
ghost use Rattle.undo_records.specs.declared.kinds.parallel_rows.ParallelRows.{ParallelRows};
ghost use Rattle.undo_records.specs.declared.kinds.parallel_columns.ParallelColumns.{ParallelColumns};
ghost use Rattle.undo_records.specs.declared.undo.Undo.TheVariants as kind;
ghost use Rattle.lp_model.specs.ProgramData.{ProgramData};
ghost use Rattle.lp_model.specs.Turning.{in_sense};
ghost use Rattle.undo_records.specs.Postsolve.{Postsolve};
ghost use Rattle.undo_pairs.specs.Numbers.{placed_pair, reduced_costs_of, started, turned_for};
ghost use Rattle.undo_pairs.specs.LiftPair.{lift_pair, undone_pair};

/// K1, K2, K5: rows that were deleted.
#[tactic(auto, using(crate::proofs::RowLaws::row_laws))]
pub fn deleted_rows_are_undone()
    ensures empty { (r : RowRecord) (p : Priced) → undone_pair (kind.EmptyRow r) p ≡ undo_empty_row r.row p }
    ensures singleton { (r : SingletonRow) (p : Priced) → undone_pair (kind.SingletonRow r) p ≡ undo_singleton_row r.row r.column r.value r.lower r.upper p }
    ensures redundant { (r : RowRecord) (p : Priced) → undone_pair (kind.RedundantRow r) p ≡ undo_redundant_row r.row p }
{}

/// K7: a forcing row of n columns, whose entries the record has.
#[tactic(auto, using(crate::proofs::ForcedLaws::forced_laws))]
pub fn forcing_rows_are_undone()
    ensures lower { (n : ℕ) (r : ForcingRow) (p : Priced) → r.side ≡ Lower → Ascends 0 n r.entries → undone_pair (kind.ForcingRow r) p ≡ undo_forced_at_lower_side n r.row (dense r.entries) p }
    ensures upper { (n : ℕ) (r : ForcingRow) (p : Priced) → r.side ≡ Upper → Ascends 0 n r.entries → undone_pair (kind.ForcingRow r) p ≡ undo_forced_at_upper_side n r.row (dense r.entries) p }
{}

/// K8: a bound that a row tightened, whose entries the record has.
#[tactic(auto, using(crate::proofs::RowLaws::row_laws))]
pub fn bound_tightenings_are_undone()
    ensures lower { (r : BoundTightening) (p : Priced) → r.side ≡ Lower → undone_pair (kind.BoundTightening r) p ≡ undo_lower_bound_tightened r.row r.column r.bound (dense r.entries) p }
    ensures upper { (r : BoundTightening) (p : Priced) → r.side ≡ Upper → undone_pair (kind.BoundTightening r) p ≡ undo_upper_bound_tightened r.row r.column r.bound (dense r.entries) p }
{}

/// K15: of two parallel rows of n columns the record has the entries of the one that was kept.
#[tactic(auto, using(crate::proofs::RowLaws::row_laws))]
pub fn parallel_rows_are_undone()
    ensures { (n : ℕ) (r : ParallelRows) (p : Priced) → Ascends 0 n r.entries → undone_pair (kind.ParallelRows r) p ≡ undo_parallel_rows n r.row r.kept r.factor r.lower r.upper (dense r.entries) p }
{}

/// K3: a fixed column, whose cost and entries the record has.
#[tactic(auto, using(crate::proofs::ColumnLaws::column_laws))]
pub fn fixed_columns_are_undone()
    ensures { (M : LinearProgram) (r : FixedColumn) (p : Priced) → r.cost ≡ M.costs r.column → Ascends 0 M.rows r.entries → dense r.entries ≡ (λ i. M.coefficient i r.column) → undone_pair (kind.FixedColumn r) p ≡ undo_fixed_column_pair M r.column r.value p }
{}

/// K12: an equation of two columns; the record has the other entries of the one that was deleted, in n rows.
#[tactic(auto, using(crate::proofs::ColumnLaws::column_laws))]
pub fn doubleton_equations_are_undone()
    ensures { (n : ℕ) (r : DoubletonEquation) (p : Priced) → Ascends 0 n r.entries → r.column ≢ r.kept → undone_pair (kind.DoubletonEquation r) p ≡ undo_doubleton_equation_pair r.row r.column r.kept r.value r.kept_value r.equal r.lower r.upper r.cost n (dense r.entries) p }
{}

/// K13, K14: a column with one entry; the record has the other entries of its row, of n columns.
#[tactic(auto, using(crate::proofs::ColumnLaws::column_laws))]
pub fn column_singletons_are_undone()
    ensures free { (n : ℕ) (r : FreeColumnSingleton) (p : Priced) → Ascends 0 n r.entries → undone_pair (kind.FreeColumnSingleton r) p ≡ undo_free_column_singleton_pair r.column r.row r.value r.at r.price n (dense r.entries) p }
    ensures kept { (n : ℕ) (r : SlackColumnSingleton) (p : Priced) → r.fate ≡ Kept → Ascends 0 n r.entries → undone_pair (kind.SlackColumnSingleton r) p ≡ undo_slack_column_singleton_kept r.column r.row r.value r.price r.lower_side r.upper_side r.lower r.upper n (dense r.entries) p }
    ensures dropped { (n : ℕ) (r : SlackColumnSingleton) (p : Priced) → r.fate ≡ Dropped → Ascends 0 n r.entries → undone_pair (kind.SlackColumnSingleton r) p ≡ undo_slack_column_singleton_dropped r.column r.row r.value r.price r.lower_side r.upper_side r.lower r.upper n (dense r.entries) p }
{}

/// K16: two parallel columns.
#[tactic(auto, using(crate::proofs::ColumnLaws::column_laws))]
pub fn parallel_columns_are_undone()
    ensures { (r : ParallelColumns) (p : Priced) → undone_pair (kind.ParallelColumns r) p ≡ undo_parallel_columns_pair r.column r.kept r.factor r.lower r.upper r.kept_lower r.kept_upper p }
{}

/// K4, K6, K9, K10, K11, K17: nothing is to be undone.
pub fn other_records_leave_pairs()
    ensures bounds { (r : ColumnRecord) (p : Priced) → undone_pair (kind.RoundedBounds r) p ≡ p }
    ensures side { (r : RowRecord) (p : Priced) → undone_pair (kind.RedundantSide r) p ≡ p }
    ensures coefficient { (r : CoefficientTightening) (p : Priced) → undone_pair (kind.CoefficientTightening r) p ≡ p }
    ensures dual { (r : ColumnRecord) (p : Priced) → undone_pair (kind.DualFixing r) p ≡ p }
    ensures dominated { (r : DominatedColumn) (p : Priced) → undone_pair (kind.DominatedColumn r) p ≡ p }
    ensures empty { (r : ColumnRecord) (p : Priced) → undone_pair (kind.EmptyColumn r) p ≡ p }
{}

/// A pair that is started, lifted and turned back is the placed one, lifted in the sense of the file.
#[tactic(auto, using(crate::proofs::SenseLaws::in_files_sense))]
pub fn pairs_are_lifted_in_the_files_sense()
    ensures { (records : Postsolve) (program : ProgramData) (xs ys : List Number) → turned_for records.sense (lift_pair records.undos (started records program xs ys)) ≡ in_sense records.sense (lift_pair records.undos) (placed_pair records program xs ys) }
{}

/// An undoing that makes of each pair what a right one makes is right: so the laws of the reductions are those of their records.
#[tactic(auto, using(crate::proofs::SenseLaws::agreeing))]
pub fn agreeing_undoings_keep_pairs()
    ensures { (s : Sense) (M R : LinearProgram) (f g : Priced → Priced) → ((p : Priced) → f p ≡ g p) → ReducesPairs s M R g → ReducesPairs s M R f }
{}

/// The reduced costs of a program, listed: a pair that has them is priced.
#[tactic(auto, using(crate::proofs::Pricing::priced_laws))]
pub fn listed_reduced_costs_price_a_pair()
    ensures size { (M : LinearProgram) (y : Vector) (n : ℕ) → length (reduced_costs_of M y n) ≡ n }
    ensures priced { (M : LinearProgram) (x y : Vector) → IsPriced M (record { x = x; y = y; z = vector_of (reduced_costs_of M y M.columns) }) }
{}

/// Undoings join: that of a record with the lift of those after it, and a lift with the undoing of one record more.
#[tactic(auto, using(crate::proofs::Joining::joining_laws))]
pub fn lifts_of_pairs_join()
    ensures none { (s : Sense) (M : LinearProgram) → ReducesPairs s M M (lift_pair []) }
    ensures first { (s : Sense) (M N R : LinearProgram) (u : Undo) (us : List Undo) → ReducesPairs s M N (undone_pair u) → ReducesPairs s N R (lift_pair us) → ReducesPairs s M R (lift_pair (u ∷ us)) }
    ensures last { (s : Sense) (M N R : LinearProgram) (u : Undo) (us : List Undo) → ReducesPairs s M N (lift_pair us) → ReducesPairs s N R (undone_pair u) → ReducesPairs s M R (lift_pair (us ++ u ∷ [])) }
{}

/// The point of a pair is undone, and lifted, as it is by itself: its duals do not matter.
#[tactic(auto, using(crate::proofs::PointsOfPairs::points_of_pairs))]
pub fn points_of_pairs_are_lifted()
    ensures undone { (u : Undo) (p : Priced) → (undone_pair u p).x ≡ undone u p.x }
    ensures lifted { (us : List Undo) (p : Priced) → (lift_pair us p).x ≡ lift us p.x }
{}
