//! What the groups are for. Each function here does nothing when it runs: it states a law, and its check proves it.

ghost use Rattle.std.specs.Prelude.{◌≡◌, ℕ, true};
ghost use Rattle.std.specs.List.{Contains};
ghost use Rattle.problem_model.specs.Problems.{IsSparse};
ghost use Rattle.problem_model.specs.Sparse.{Sparse};
ghost use Rattle.parallel_laws.specs.ParallelColumns as parallel_columns;
ghost use Rattle.parallel_laws.specs.ParallelRows as parallel_rows;
ghost use Rattle.line_groups.specs.Groups.{group_at, AreGroupsOf, LineGroups};

/// Rows of which one is a multiple of the other, so that they can be joined, are each in the other's group.
#[tactic(auto, using(crate::proofs::Sharing::parallel_rows_share))]
pub fn parallel_rows_share_a_group()
    ensures { (t : LineGroups) (p : Sparse) (i k : ℕ) → IsSparse p → AreGroupsOf t p → parallel_rows.enabled p i k ≡ true → Contains (group_at t.rows i) k × Contains (group_at t.rows k) i }
{}

/// Columns of which one is a multiple of the other, with its cost, so that they can be joined, are each in the other's group.
#[tactic(auto, using(crate::proofs::Sharing::parallel_columns_share))]
pub fn parallel_columns_share_a_group()
    ensures { (t : LineGroups) (p : Sparse) (j k : ℕ) → IsSparse p → AreGroupsOf t p → parallel_columns.enabled p j k ≡ true → Contains (group_at t.columns j) k × Contains (group_at t.columns k) j }
{}
