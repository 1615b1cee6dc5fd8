//! The theory of linear programs and of what reduces them. `specs/` has the definitions: activities and where they are reached, ends that
//! meet, steps in a row. The functions here do nothing when they run: each states laws of those definitions, and its check proves them.
#![tactic(auto)]

ghost use Rattle.std.specs.Prelude.{◌≡◌, ◌≢◌, ℕ, ◌<◌, List, Some};
ghost use Rattle.fractions.specs.Number.{Number, ◌+ℚ◌, ◌*ℚ◌};
ghost use Rattle.fractions.specs.Total.{total};
ghost use Rattle.fractions.specs.Ends.{AtLeast, AtMost};
ghost use Rattle.lp_model.specs.declared.terms.Term.{Term};
ghost use Rattle.lp_model.specs.declared.program.Sense.{Sense};
ghost use Rattle.lp_model.specs.Vectors.{Vector};
ghost use Rattle.lp_model.specs.LinearProgram.{LinearProgram, value_at};
ghost use Rattle.lp_model.specs.Reductions.{Reduces, ReducesPairs, Priced};
ghost use Rattle.lp_model.specs.Sparse.{dense, Ascends, sparse_total};
ghost use Rattle.lp_model.specs.Verdicts.{NoPoint, Endless, NoPointOrEndless};
ghost use Rattle.lp_theory.specs.Activities.{least, greatest, least_rest, greatest_rest, InBounds};
ghost use Rattle.lp_theory.specs.Changes.{ValueMoves, CostMoves, CoefficientMoves};
ghost use Rattle.lp_theory.specs.Joining.{Step, end_of, lift, lift_pair, offset_of, EachReduces, EachReducesPairs};
ghost use Rattle.lp_theory.specs.Reached.{rest_at, InBoundsOff, IsAtLeastEnd, IsAtGreatestEnd};

/// A value and a cost move with one coordinate, and a value with one coefficient.
pub fn values_move_with_a_coordinate()
    ensures value { ValueMoves }
    ensures cost { CostMoves }
    ensures coefficient { CoefficientMoves }
{}

/// The sum over the terms of a sparse row is the sum over all columns.
pub fn sparse_sums_are_sums()
    ensures { (terms : List Term) (m n : ℕ) (x : Vector) → Ascends m n terms → sparse_total terms x ≡ total n (λ k. dense terms k *ℚ x k) }
{}

/// Each point within the bounds gives a row a value between its least and its greatest activity.
pub fn activities_bound_values()
    ensures low { (M : LinearProgram) (i : ℕ) (x : Vector) → InBounds M x → AtLeast (least M i) (value_at M i x) }
    ensures high { (M : LinearProgram) (i : ℕ) (x : Vector) → InBounds M x → AtMost (greatest M i) (value_at M i x) }
{}

/// A row's value is what one column gives and the rest, and the other columns' bounds bound the rest.
pub fn rests_bound_the_rest_of_a_value()
    ensures parts { (M : LinearProgram) (i j : ℕ) (x : Vector) → j < M.columns → value_at M i x ≡ M.coefficient i j *ℚ x j +ℚ rest_at M i j x }
    ensures low { (M : LinearProgram) (i j : ℕ) (x : Vector) → InBoundsOff M j x → AtLeast (least_rest M i j) (rest_at M i j x) }
    ensures high { (M : LinearProgram) (i j : ℕ) (x : Vector) → InBoundsOff M j x → AtMost (greatest_rest M i j) (rest_at M i j x) }
{}

/// Where a row's value, or what the columns but one give of it, reaches its least or its greatest, each of these columns is at
/// the end that gives it.
pub fn activities_are_reached_at_ends()
    ensures least { (M : LinearProgram) (i : ℕ) (x : Vector) → InBounds M x → least M i ≡ Some (value_at M i x) → (k : ℕ) → k < M.columns → IsAtLeastEnd M i x k }
    ensures greatest { (M : LinearProgram) (i : ℕ) (x : Vector) → InBounds M x → greatest M i ≡ Some (value_at M i x) → (k : ℕ) → k < M.columns → IsAtGreatestEnd M i x k }
    ensures least_rest { (M : LinearProgram) (i j : ℕ) (x : Vector) → InBoundsOff M j x → least_rest M i j ≡ Some (rest_at M i j x) → (k : ℕ) → k ≢ j → k < M.columns → IsAtLeastEnd M i x k }
    ensures greatest_rest { (M : LinearProgram) (i j : ℕ) (x : Vector) → InBoundsOff M j x → greatest_rest M i j ≡ Some (rest_at M i j x) → (k : ℕ) → k ≢ j → k < M.columns → IsAtGreatestEnd M i x k }
{}

/// Reductions in a row are one reduction, undone last first, whose offset is the sum of theirs.
pub fn reductions_join()
    ensures points { (d : Sense) (M : LinearProgram) (steps : List Step) → EachReduces d M steps → Reduces d M (end_of M steps) (lift steps) (offset_of steps) }
    ensures pairs { (d : Sense) (M : LinearProgram) (steps : List Step) → EachReducesPairs d M steps → ReducesPairs d M (end_of M steps) (lift_pair steps) }
{}

/// What is known of the reduced program in the place of a best point is known of the program.
pub fn verdicts_go_back()
    ensures none { (d : Sense) (M R : LinearProgram) (f : Vector → Vector) (k : Number) → Reduces d M R f k → NoPoint R → NoPoint M }
    ensures endless { (d : Sense) (M R : LinearProgram) (f : Vector → Vector) (k : Number) → Reduces d M R f k → Endless d R → Endless d M }
    ensures either { (d : Sense) (M R : LinearProgram) (f : Vector → Vector) (k : Number) → Reduces d M R f k → NoPointOrEndless d R → NoPointOrEndless d M }
{}

/// What is known of the program that reductions in a row leave, in the place of a best point, is known of the first program.
pub fn verdicts_go_back_over_steps()
    ensures none { (d : Sense) (M : LinearProgram) (steps : List Step) → EachReduces d M steps → NoPoint (end_of M steps) → NoPoint M }
    ensures endless { (d : Sense) (M : LinearProgram) (steps : List Step) → EachReduces d M steps → Endless d (end_of M steps) → Endless d M }
    ensures either { (d : Sense) (M : LinearProgram) (steps : List Step) → EachReduces d M steps → NoPointOrEndless d (end_of M steps) → NoPointOrEndless d M }
{}
