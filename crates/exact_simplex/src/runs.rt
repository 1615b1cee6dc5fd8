//! A run.

ghost use Rattle.std.specs.Prelude.{◌≡◌, false};
ghost use Rattle.tableau_laws.specs.Tableaus.{start};
ghost use Rattle.tableau_laws.specs.Room.{StartFits};
ghost use Rattle.simplex_laws.specs.Runs.{NoneCrossed};
ghost use Rattle.simplex_tableau.specs.Data.{shown};
ghost use Rattle.simplex_tableau.specs.Programs.{minimized};
ghost use Rattle.exact_simplex.specs.RunEnds.{RunEnds};

use lp_model::Program;
use simplex_steps::{End, look, step};
use simplex_tableau::Tableau;

/// How a run ended.
#[derive(Clone, Copy)]
pub enum Ending {
    /// The rules ask for no step, after so many.
    Ended { end: End, pivots: u64 },
    /// No step is left, and the rules ask for one more.
    Spent,
    /// A number has no room, after so many steps.
    Past { pivot: u64 },
}

/// Runs from the first tableau, with so many steps at most.
pub fn run(program: &Program, tableau: &mut Tableau, pivots: u64) -> Ending
    requires usable { tableau.old.spent ≡ false }
    requires start { shown tableau.old ≡ start (minimized program.now) }
    requires in_order { NoneCrossed (minimized program.now) }
    requires room { StartFits (minimized program.now) }
    ensures { RunEnds (minimized program.now) pivots result (shown tableau.new) }
{
    for done in 0..pivots {
        let Ok(said) = step(program, tableau) else {
            return Ending::Past { pivot: done };
        };
        if let Some(end) = said {
            return Ending::Ended { end, pivots: done };
        }
    }
    match look(program, tableau) {
        Some(end) => Ending::Ended { end, pivots },
        None => Ending::Spent,
    }
}
