//! What a presolve and a later postsolve say together.

ghost use Rattle.two_runs.specs.ComingBack.{BestComesBack, FeasibleComesBack, ProofComesBack};

use whole_way::laws::pairs_are_read_again;

/// A presolve leaves OUT and REC, and a later postsolve finds them so. Then a feasible SOL of OUT is brought back to a feasible RESULT of IN
/// that costs the printed offset more, and a best one to a best one. With duals a proof that SOL is best is brought back to a proof that
/// RESULT is. With numbers of any width that is so too, where those of RESULT are short enough to be read again.
pub fn solutions_come_back_from_two_runs()
    ensures feasible { FeasibleComesBack }
    ensures best { BestComesBack }
    ensures proof { ProofComesBack }
{
    pairs_are_read_again();
}
