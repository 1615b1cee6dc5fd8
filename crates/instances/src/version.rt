//! Frozen versions of a problem.

ghost use Rattle.std.specs.Prelude.{◌≡◌};
ghost use Rattle.line_groups.specs.Groups.{AreGroupsOf};

use crate::tally::Tally;
use line_groups::Parallels;
use sparse_problem::Problem;
use std::marker::Model;

/// A problem as it stood when so many instances had been applied, a verdict among them, and how often each bound had been tightened. The
/// groups of its lines come with it, by which a scan finds lines that are multiples of one another.
#[derive(Drop)]
pub struct Version {
    problem: Problem,
    groups: Parallels,
    tally: Tally,
    applied: u64,
}

impl Model for Version {
    ghost use Rattle.std.specs.Coded.{codes};
    ghost use Rattle.fractions.specs.Lowest.{number_code};
    ghost use Rattle.line_groups.specs.Groups.{AreGroupsOf};
    ghost use Rattle.presolve_model.specs.Worlds.{Version as Frozen};

    ghost Value = { Frozen };

    ghost coded = { Prim.hlevel (codes, number_code) };

    ghost view = { λ v. record { problem = v.problem; tally = v.tally; applied = v.applied } };

    ghost invariant = { λ v. AreGroupsOf v.groups v.problem };
}

impl Version {
    /// A problem with its groups, how often each bound had been tightened, and how many instances had been applied.
    pub fn new(problem: Problem, groups: Parallels, tally: Tally, applied: u64) -> Version
        requires { AreGroupsOf groups problem }
        ensures { result ≡ record { problem = problem; tally = tally; applied = applied } }
    {
        Version {
            problem,
            groups,
            tally,
            applied,
        }
    }

    /// The problem.
    pub fn problem(&self) -> &Problem
        ensures { result.now ≡ self.now.problem }
    {
        &self.problem
    }

    /// The groups of its lines.
    pub fn groups(&self) -> &Parallels
        ensures { AreGroupsOf result.now self.now.problem }
    {
        &self.groups
    }

    /// How often each bound had been tightened.
    pub fn tally(&self) -> &Tally
        ensures { result.now ≡ self.now.tally }
    {
        &self.tally
    }

    /// How many instances had been applied.
    pub fn applied(&self) -> u64
        ensures { result ≡ self.now.applied }
    {
        self.applied
    }
}
