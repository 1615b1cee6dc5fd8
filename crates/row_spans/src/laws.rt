//! What the activities that are made of a problem's row have to do with the linear program that the problem shows. The functions here do
//! nothing when they run: each states laws, and its check proves them.

ghost use Rattle.std.specs.Prelude.{◌≡◌, ℕ, true, List, Option, Some, Ok, map};
ghost use Rattle.fractions.specs.Number.{Number};
ghost use Rattle.lp_theory.specs.Activities.{least, greatest, least_rest, greatest_rest};
ghost use Rattle.problem_model.specs.Parts.{contents_of};
ghost use Rattle.problem_model.specs.Problems.{IsSparse, row_at, row_entries};
ghost use Rattle.problem_model.specs.Showing.{shown};
ghost use Rattle.problem_model.specs.Sparse.{Sparse};
ghost use Rattle.problem_model.specs.declared.part.Part.TheVariants as part;
ghost use Rattle.row_spans.specs.RowSums.{activity, rest};
ghost use Rattle.row_spans.specs.Spans.{AreSpans, spans_from, spans_of};
ghost use Rattle.row_spans.specs.declared.span.Extreme.TheVariants.{Least, Greatest};

/// Where a row's activity is not past, it is that of the row in the linear program that is shown; and so is one with a column left out.
pub fn row_sums_are_activities()
    ensures least { (p : Sparse) (i : ℕ) (e : Option Number) → IsSparse p → (row_at p i).live ≡ true → activity Least (spans_of p i) ≡ Ok e → e ≡ least (shown p) i }
    ensures greatest { (p : Sparse) (i : ℕ) (e : Option Number) → IsSparse p → (row_at p i).live ≡ true → activity Greatest (spans_of p i) ≡ Ok e → e ≡ greatest (shown p) i }
    ensures least_rest { (p : Sparse) (i j : ℕ) (e : Option Number) → IsSparse p → (row_at p i).live ≡ true → rest Least j (spans_of p i) ≡ Ok e → e ≡ least_rest (shown p) i j }
    ensures greatest_rest { (p : Sparse) (i j : ℕ) (e : Option Number) → IsSparse p → (row_at p i).live ≡ true → rest Greatest j (spans_of p i) ≡ Ok e → e ≡ greatest_rest (shown p) i j }
{}

/// What is read of a row's entries and of the bounds of their columns gives its entries with these bounds; their ids ascend, and none is 0.
pub fn spans_are_read()
    ensures read { (p : Sparse) (i : ℕ) → spans_from (row_entries p i) (map (contents_of p) (map (λ t. part.Bounds t.id) (row_entries p i))) ≡ Some (spans_of p i) }
    ensures spans { (p : Sparse) (i : ℕ) → IsSparse p → AreSpans 0 (spans_of p i) }
{}
