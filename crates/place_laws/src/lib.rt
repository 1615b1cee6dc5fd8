//! Where instances are: rows and columns around parts that were noted, and the instances there; and that these read parts of the problem. The
//! functions here do nothing when they run: each states laws of the definitions, and its check proves them.
#![tactic(auto)]

ghost use Rattle.std.specs.Prelude.{◌≡◌, true, length, List};
ghost use Rattle.std.specs.List.{Contains};
ghost use Rattle.fractions.specs.declared.Numbers.{Numbers};
ghost use Rattle.problem_model.specs.declared.part.Part.{Part};
ghost use Rattle.problem_model.specs.Problems.{IsSparse};
ghost use Rattle.problem_model.specs.Sparse.{Sparse};
ghost use Rattle.transactions.specs.Transactions.{IsPartOf};
ghost use Rattle.presolve_model.specs.declared.instance.Instance.{Instance};
ghost use Rattle.presolve_model.specs.Enabled.{enabled_on, reads};
ghost use Rattle.presolve_model.specs.Instances.{is_open};
ghost use Rattle.presolve_model.specs.Tallies.{Open};
ghost use Rattle.place_laws.specs.Choosing.{Around, HasEach, HoldsAround, IsComplete};
ghost use Rattle.place_laws.specs.Marks.{IsMarked, IsNoted, Marks};

/// Where each enabled instance that is open is marked, the rows and columns to which what is marked leads are where each one is that does
/// not sleep. Where each reads one of some parts that count for all rules, they are where each is.
pub fn instances_are_near()
    ensures complete { (numbers : Numbers) (opens : Open) (p : Sparse) (m : Marks) (n : Around) → IsSparse p → HoldsAround p m n → ((e : Instance) → enabled_on p e ≡ true → is_open opens e ≡ true → IsMarked numbers p m e) → IsComplete numbers opens p n m.asleep }
    ensures each { (opens : Open) (p : Sparse) (parts : List Part) (m : Marks) (n : Around) → IsSparse p → HoldsAround p m n → m.noted ≡ parts → m.stirred ≡ parts → m.roused ≡ parts → ((e : Instance) → enabled_on p e ≡ true → is_open opens e ≡ true → IsNoted p parts e) → HasEach opens p n }
{}

/// What an enabled instance reads are parts of the problem.
pub fn instances_read_parts()
    ensures { (p : Sparse) (e : Instance) → enabled_on p e ≡ true → (a : Part) → Contains (reads p e) a → IsPartOf (length p.matrix.rows) (length p.matrix.columns) a }
{}
