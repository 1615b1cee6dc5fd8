//! Laws of the rules of one row or one column: what the edits and the record of each owe, and what the verdicts mean. The functions here do
//! nothing when they run: each states the law of a rule, and its check proves it.
#![tactic(auto)]

ghost use Rattle.lp_model.specs.Verdicts.{NoPoint};
ghost use Rattle.rule_words.specs.Owed.{RuleDecides, RuleOwes};
ghost use Rattle.singleton_laws.specs.EmptyRow as empty_row;
ghost use Rattle.singleton_laws.specs.SingletonRow as singleton_row;
ghost use Rattle.singleton_laws.specs.FixedColumn as fixed_column;
ghost use Rattle.singleton_laws.specs.RoundedBounds as rounded_bounds;
ghost use Rattle.singleton_laws.specs.EmptyColumn as empty_column;
ghost use Rattle.singleton_laws.specs.CrossedBounds as crossed_bounds;
ghost use Rattle.singleton_laws.specs.CrossedSides as crossed_sides;

/// Each row without entries whose sides hold 0 can be deleted.
pub fn empty_rows_can_be_deleted()
    ensures { RuleOwes empty_row.enabled empty_row.edits empty_row.record_of }
{}

/// Each row with one entry and sides that aren't crossed can become bounds of that entry's column.
pub fn singleton_rows_can_become_bounds()
    ensures { RuleOwes singleton_row.enabled singleton_row.edits singleton_row.record_of }
{}

/// Each column with equal bounds can be put into the sides of its rows.
pub fn fixed_columns_can_be_put_into_sides()
    ensures { RuleOwes fixed_column.enabled fixed_column.edits fixed_column.record_of }
{}

/// The bounds of each whole column can be rounded inwards.
pub fn bounds_can_be_rounded()
    ensures { RuleOwes rounded_bounds.enabled rounded_bounds.edits rounded_bounds.record_of }
{}

/// Each column without entries can be fixed where it costs least.
pub fn empty_columns_can_be_fixed()
    ensures { RuleOwes empty_column.enabled empty_column.edits empty_column.record_of }
{}

/// Bounds that are crossed say that no point is feasible.
pub fn crossed_bounds_decide()
    ensures { RuleDecides crossed_bounds.enabled NoPoint }
{}

/// Sides that are crossed say that no point is feasible.
pub fn crossed_sides_decide()
    ensures { RuleDecides crossed_sides.enabled NoPoint }
{}
