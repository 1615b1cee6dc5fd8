//! Laws of the rules that argue with the cost of a column: what the edits and the record of each owe, and what the verdict means. The
//! functions here do nothing when they run: each states the law of a rule, and its check proves it.
#![tactic(auto)]

pub mod form;

ghost use Rattle.std.specs.Prelude.{◌≡◌, true, ℕ};
ghost use Rattle.lp_model.specs.declared.program.Sense.TheVariants.{Min};
ghost use Rattle.lp_model.specs.Verdicts.{NoPointOrEndless};
ghost use Rattle.problem_model.specs.Problems.{IsSparse};
ghost use Rattle.problem_model.specs.Sparse.{Sparse};
ghost use Rattle.rule_words.specs.Owed.{Owes, RuleDecides, RuleOwes};
ghost use Rattle.dual_laws.specs.DualFixing as dual_fixing;
ghost use Rattle.dual_laws.specs.DominatedColumn as dominated_column;
ghost use Rattle.dual_laws.specs.UnboundedColumn as unbounded_column;

/// Each column that no row locks in the direction in which it doesn't cost more can be fixed at its bound there.
pub fn columns_can_be_dual_fixed()
    ensures { RuleOwes dual_fixing.enabled dual_fixing.edits dual_fixing.record_of }
{}

/// Each column that another one without an upper bound dominates can be fixed at its lower bound.
pub fn dominated_columns_can_be_fixed()
    ensures { (p : Sparse) (i j k : ℕ) → IsSparse p → dominated_column.enabled p i j k ≡ true → Owes p (dominated_column.edits p k) (dominated_column.record_of i j k) }
{}

/// A column that no row locks in a direction in which it has no bound and costs less says that each feasible point gives one of any cost.
pub fn unbounded_columns_decide()
    ensures { RuleDecides unbounded_column.enabled (NoPointOrEndless Min) }
{}
