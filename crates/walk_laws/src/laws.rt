//! What holds of records that walk.

ghost use Rattle.std.specs.Prelude.{◌≡◌, true};
ghost use Rattle.lp_model.specs.Meaning.{meaning};
ghost use Rattle.lp_model.specs.Optimality.{Continuous};
ghost use Rattle.lp_model.specs.ProgramData.{ProgramData};
ghost use Rattle.lp_model.specs.Writable.{EntriesAscend};
ghost use Rattle.undo_records.specs.Named.{AreRecords};
ghost use Rattle.undo_records.specs.Postsolve.{Postsolve};
ghost use Rattle.problem_model.specs.Sparse.{Sparse};
ghost use Rattle.presolve_model.specs.declared.conclusion.End.{End};
ghost use Rattle.presolve_model.specs.declared.conclusion.Options.{Options};
ghost use Rattle.presolve_model.specs.declared.instance.Reduction.{Reduction};
ghost use Rattle.presolve_model.specs.Accounts.{ReducesPairsTo, ReducesTo};
ghost use Rattle.presolve_model.specs.Conclusions.{Concluded};
ghost use Rattle.presolve_model.specs.Tables.{record_of};
ghost use Rattle.presolve_model.specs.Workers.{Workers};
ghost use Rattle.walk_laws.specs.declared.flaw.Flaw.{Flaw};
ghost use Rattle.walk_laws.specs.Flaws.{IsFirstFlaw};
ghost use Rattle.walk_laws.specs.Walk.{reduction_of, Walk};

/// The record of a reduction names it.
pub fn records_name_reductions()
    ensures { (r : Reduction) (p : Sparse) → reduction_of (record_of r p) ≡ r }
{}

/// Records that walk from a program reduce it to the other one, with the offset that they tell, and with duals too where no column is
/// whole or semi-continuous.
pub fn walks_reduce()
    ensures reduces { (program reduced : ProgramData) (told : Postsolve) → EntriesAscend program → AreRecords told → Walk program reduced told → ReducesTo program reduced told }
    ensures pairs { (program reduced : ProgramData) (told : Postsolve) → AreRecords told → Walk program reduced told → Continuous (meaning program) → ReducesPairsTo program reduced told }
{}

/// What a run concluded walks, whatever its numbers are, where duals are asked for only of a program without whole and semi-continuous
/// columns.
pub fn runs_walk()
    ensures { (options : Options) (workers : Workers) (program reduced : ProgramData) (told : Postsolve) (ended : End) → Concluded options workers program reduced told ended → (options.dual ≡ true → Continuous (meaning program)) → Walk program reduced told }
{}

/// Records that walk have no flaw, and others no two.
pub fn first_flaws_are_one()
    ensures none { (program reduced : ProgramData) (told : Postsolve) (flaw : Flaw) → Walk program reduced told → IsFirstFlaw program reduced told flaw → ⊥ }
    ensures one { (program reduced : ProgramData) (told : Postsolve) (one other : Flaw) → IsFirstFlaw program reduced told one → IsFirstFlaw program reduced told other → one ≡ other }
{}
