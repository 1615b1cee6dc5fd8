//! Laws of the bounds that are tightened (K8), whose changes are counted, and of the coefficients (K9).

ghost use Rattle.std.specs.Prelude.{◌≡◌, ◌≢◌, ℕ, true};
ghost use Rattle.std.specs.List.{Contains};
ghost use Rattle.undo_records.specs.declared.side.Side.{Side};
ghost use Rattle.problem_model.specs.declared.part.Part.TheVariants as part;
ghost use Rattle.problem_model.specs.Parts.{changes_of, contents_of};
ghost use Rattle.problem_model.specs.Problems.{IsSparse};
ghost use Rattle.problem_model.specs.Raised.{risen};
ghost use Rattle.problem_model.specs.Sparse.{Sparse};
ghost use Rattle.presolve_model.specs.declared.instance.Instance.TheVariants as at;
ghost use Rattle.presolve_model.specs.declared.instance.Reduction.TheVariants.{BoundTightening, CoefficientTightening};
ghost use Rattle.presolve_model.specs.Changes.{changed};
ghost use Rattle.presolve_model.specs.Enabled.{enabled_on, reads};

/// Each tightened bound is another one, so the number of changes of the column's bounds rises; these are read; and all that a row tightens
/// read the same parts.
pub fn bound_tightenings_change()
    ensures differ { (p : Sparse) (i j : ℕ) (side : Side) → IsSparse p → enabled_on p (at.Reduction (BoundTightening i j side)) ≡ true → contents_of (changed (BoundTightening i j side) p) (part.Bounds j) ≢ contents_of p (part.Bounds j) }
    ensures rise { (p : Sparse) (i j : ℕ) (side : Side) → IsSparse p → enabled_on p (at.Reduction (BoundTightening i j side)) ≡ true → changes_of (changed (BoundTightening i j side) p) (part.Bounds j) ≡ risen (changes_of p (part.Bounds j)) }
    ensures read { (p : Sparse) (i j : ℕ) (side : Side) → enabled_on p (at.Reduction (BoundTightening i j side)) ≡ true → Contains (reads p (at.Reduction (BoundTightening i j side))) (part.Bounds j) }
    ensures alike { (p : Sparse) (i j k : ℕ) (side other : Side) → reads p (at.Reduction (BoundTightening i j side)) ≡ reads p (at.Reduction (BoundTightening i k other)) }
{}

/// With each tightened coefficient the row holds another one, so the number of changes of the row rises; the row is read; and all
/// coefficients of a row are tightened by what is read of the same parts.
pub fn coefficient_tightenings_change()
    ensures differ { (p : Sparse) (i j : ℕ) → IsSparse p → enabled_on p (at.Reduction (CoefficientTightening i j)) ≡ true → contents_of (changed (CoefficientTightening i j) p) (part.Row i) ≢ contents_of p (part.Row i) }
    ensures rise { (p : Sparse) (i j : ℕ) → IsSparse p → enabled_on p (at.Reduction (CoefficientTightening i j)) ≡ true → changes_of (changed (CoefficientTightening i j) p) (part.Row i) ≡ risen (changes_of p (part.Row i)) }
    ensures read { (p : Sparse) (i j : ℕ) → Contains (reads p (at.Reduction (CoefficientTightening i j))) (part.Row i) }
    ensures alike { (p : Sparse) (i j k : ℕ) → reads p (at.Reduction (CoefficientTightening i j)) ≡ reads p (at.Reduction (CoefficientTightening i k)) }
{}
