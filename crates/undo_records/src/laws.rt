//! What holds of all records. The functions do nothing when they run: each states laws, and its check proves them.

ghost use Rattle.std.specs.Prelude.{◌≡◌, ◌≢◌, ℕ, List, [], ◌∷◌, ◌++◌, All, Option, Some};
ghost use Rattle.fractions.specs.Number.{Number, zero_ℚ, ◌+ℚ◌, ◌*ℚ◌};
ghost use Rattle.fractions.specs.Order.{◌≤ℚ◌};
ghost use Rattle.fractions.specs.Ends.{Between};
ghost use Rattle.fractions.specs.MinMax.{abs_ℚ};
ghost use Rattle.lp_model.specs.declared.terms.Term.{Term};
ghost use Rattle.lp_model.specs.Sparse.{sparse_total};
ghost use Rattle.lp_model.specs.Vectors.{Vector};
ghost use Rattle.undo_records.specs.Lift.{undone};
ghost use Rattle.undo_records.specs.Near.{near};
ghost use Rattle.undo_records.specs.Sound.{CanUndo, IsSound};
ghost use Rattle.lp_model.specs.Flags.{Flags};
ghost use Rattle.undo_records.specs.Walk.{NamesLive, Walks, after};
ghost use Rattle.undo_records.specs.declared.undo.Undo.{Undo};
ghost use Rattle.undo_records.specs.declared.undo.Undo.TheVariants as kind;
ghost use Rattle.undo_records.specs.declared.kinds.doubleton_equation.DoubletonEquation.{DoubletonEquation};
ghost use Rattle.undo_records.specs.declared.kinds.free_column_singleton.FreeColumnSingleton.{FreeColumnSingleton};
ghost use Rattle.undo_records.specs.declared.kinds.parallel_columns.ParallelColumns.{ParallelColumns};

/// A sound record can be undone.
pub fn sound_records_can_be_undone()
    ensures { (m n : ℕ) (u : Undo) → IsSound m n u → CanUndo n u }
{}

/// Sound records all of whose names are live lead on: one record more at the end.
pub fn walks_go_on()
    ensures walk { (f g : Flags) (us : List Undo) (u : Undo) → Walks f us g → NamesLive g u → Walks f (us ++ u ∷ []) (after u g) }
    ensures records { (m n : ℕ) (us : List Undo) (u : Undo) → All (IsSound m n) us → IsSound m n u → All (IsSound m n) (us ++ u ∷ []) }
{}

/// What undoing brings back: the equation of two columns holds again, the row of a free column stands at its side, and the merged
/// number is the kept column's plus the factor times the other one's.
pub fn undoing_brings_rows_back()
    ensures doubleton { (r : DoubletonEquation) (x : Vector) → r.value ≢ zero_ℚ → r.kept ≢ r.column → r.value *ℚ undone (kind.DoubletonEquation r) x r.column +ℚ r.kept_value *ℚ undone (kind.DoubletonEquation r) x r.kept ≡ r.equal }
    ensures free { (r : FreeColumnSingleton) (x : Vector) → r.value ≢ zero_ℚ → r.value *ℚ undone (kind.FreeColumnSingleton r) x r.column +ℚ sparse_total r.entries x ≡ r.at }
    ensures merged { (r : ParallelColumns) (x : Vector) → r.column ≢ r.kept → undone (kind.ParallelColumns r) x r.kept +ℚ r.factor *ℚ undone (kind.ParallelColumns r) x r.column ≡ x r.kept }
{}

/// The number between two ends that is nearest to 0 is between them, where they are in order, and no number between them is nearer.
pub fn near_numbers_are_nearest()
    ensures between { (lo hi : Option Number) → ((a b : Number) → lo ≡ Some a → hi ≡ Some b → a ≤ℚ b) → Between lo hi (near lo hi) }
    ensures nearest { (lo hi : Option Number) (x : Number) → Between lo hi x → abs_ℚ (near lo hi) ≤ℚ abs_ℚ x }
{}
