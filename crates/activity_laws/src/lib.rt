//! Laws of the rules that argue with the activities of a row: what the edits and the record of each owe, and what the verdict means. The
//! functions here do nothing when they run: each states the law of a rule, and its check proves it.
#![tactic(auto)]

ghost use Rattle.std.specs.Prelude.{◌≡◌, ℕ, true};
ghost use Rattle.lp_model.specs.Verdicts.{NoPoint};
ghost use Rattle.undo_records.specs.declared.side.Side.{Side};
ghost use Rattle.problem_model.specs.Problems.{IsSparse};
ghost use Rattle.problem_model.specs.Sparse.{Sparse};
ghost use Rattle.rule_words.specs.Owed.{Owes, RuleDecides, RuleOwes};
ghost use Rattle.activity_laws.specs.RedundantRow as redundant_row;
ghost use Rattle.activity_laws.specs.RedundantSide as redundant_side;
ghost use Rattle.activity_laws.specs.ForcingRow as forcing_row;
ghost use Rattle.activity_laws.specs.BoundTightening as bound_tightening;
ghost use Rattle.activity_laws.specs.InfeasibleRow as infeasible_row;

/// Each row whose sides its columns' bounds keep can be deleted.
pub fn redundant_rows_can_be_deleted()
    ensures { RuleOwes redundant_row.enabled redundant_row.edits redundant_row.record_of }
{}

/// Of two sides of a row the one that its columns' bounds keep can become infinite.
pub fn redundant_sides_can_be_dropped()
    ensures { RuleOwes redundant_side.enabled redundant_side.edits redundant_side.record_of }
{}

/// Each column of a row that reaches a side only where its columns are at one end can be fixed there, and the row can be deleted.
pub fn forcing_rows_fix_their_columns()
    ensures { RuleOwes forcing_row.enabled forcing_row.edits forcing_row.record_of }
{}

/// A bound of a column can become the one that a row implies with the bounds of its other columns, and that is strictly better.
pub fn bounds_can_be_tightened()
    ensures owes { (p : Sparse) (i j : ℕ) (side : Side) → IsSparse p → bound_tightening.enabled p i j side ≡ true → Owes p (bound_tightening.edits p i j side) (bound_tightening.record_of p i j side) }
    ensures improves { (p : Sparse) (i j : ℕ) (side : Side) → bound_tightening.enabled p i j side ≡ true → bound_tightening.Improves p i j side }
{}

/// A row of which a side is out of reach of its columns' bounds says that no point is feasible.
pub fn infeasible_rows_decide()
    ensures { RuleDecides infeasible_row.enabled NoPoint }
{}
