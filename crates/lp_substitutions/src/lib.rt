//! Reductions that put a column elsewhere, on the meaning of a program with original ids: K12 (doubleton equation), K13 (free
//! column singleton) and K14 (slack column singleton).
//!
//! `specs/` says where each is enabled, what it changes and how it is undone. The functions do nothing when they run: each states
//! what a reduction keeps, and its check proves it.
#![tactic(auto)]

ghost use Rattle.std.specs.Prelude.{ℕ};
ghost use Rattle.fractions.specs.Number.{Number};
ghost use Rattle.lp_model.specs.declared.program.Sense.{Sense};
ghost use Rattle.lp_model.specs.declared.program.Sense.TheVariants.{Min};
ghost use Rattle.lp_model.specs.LinearProgram.{LinearProgram};
ghost use Rattle.lp_model.specs.Reductions.{Reduces, ReducesPairs};
ghost use Rattle.lp_substitutions.specs.DoubletonEquation.{IsDoubletonEquation, doubleton_equation_substituted, doubleton_equation_offset, undo_doubleton_equation, doubleton_equation_pair};
ghost use Rattle.lp_substitutions.specs.FreeColumnSingleton.{IsFreeColumnSingleton, free_column_singleton_deleted, free_column_singleton_offset, free_column_singleton_point, free_column_singleton_pair};
ghost use Rattle.lp_substitutions.specs.SlackColumnSingleton.{IsSlackColumnSingleton, slack_column_singleton_deleted, IsRowLeftFree, slack_row_deleted, slack_column_singleton_offset, slack_column_singleton_point, slack_kept_pair, slack_dropped_pair};

/// K12: substituting a column by an equation of two columns.
pub fn doubleton_equations_reduce()
    ensures points { (d : Sense) (M : LinearProgram) (i j k : ℕ) (r : Number) → IsDoubletonEquation M i j k r → Reduces d M (doubleton_equation_substituted M i j k r) (undo_doubleton_equation j k (M.coefficient i j) (M.coefficient i k) r) (doubleton_equation_offset M i j r) }
    ensures pairs { (M : LinearProgram) (i j k : ℕ) (r : Number) → IsDoubletonEquation M i j k r → ReducesPairs Min M (doubleton_equation_substituted M i j k r) (doubleton_equation_pair M i j k r) }
{}

/// K13: deleting a column with one entry, whose bounds its row implies, together with the row.
pub fn free_column_singletons_reduce()
    ensures points { (M : LinearProgram) (j i : ℕ) (s : Number) → IsFreeColumnSingleton M j i s → Reduces Min M (free_column_singleton_deleted M j i) (free_column_singleton_point M j i s) (free_column_singleton_offset M j i s) }
    ensures pairs { (M : LinearProgram) (j i : ℕ) (s : Number) → IsFreeColumnSingleton M j i s → ReducesPairs Min M (free_column_singleton_deleted M j i) (free_column_singleton_pair M j i s) }
{}

/// K14: deleting a column with one entry as a slack of its row, which is kept, or deleted where neither side is left.
pub fn slack_column_singletons_reduce()
    ensures kept_points { (d : Sense) (M : LinearProgram) (j i : ℕ) → IsSlackColumnSingleton M j i → Reduces d M (slack_column_singleton_deleted M j i) (slack_column_singleton_point M j i) (slack_column_singleton_offset M j i) }
    ensures kept_pairs { (M : LinearProgram) (j i : ℕ) → IsSlackColumnSingleton M j i → ReducesPairs Min M (slack_column_singleton_deleted M j i) (slack_kept_pair M j i) }
    ensures dropped_points { (d : Sense) (M : LinearProgram) (j i : ℕ) → IsRowLeftFree M j i → Reduces d M (slack_row_deleted M j i) (slack_column_singleton_point M j i) (slack_column_singleton_offset M j i) }
    ensures dropped_pairs { (M : LinearProgram) (j i : ℕ) → IsRowLeftFree M j i → ReducesPairs Min M (slack_row_deleted M j i) (slack_dropped_pair M j i) }
{}
