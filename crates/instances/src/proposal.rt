//! Proposals.

ghost use Rattle.std.specs.Prelude.{◌≡◌};
ghost use Rattle.presolve_model.specs.Given.{Proposed};
ghost use Rattle.presolve_model.specs.Enabled.{Enabled};

use crate::reading::Reading;
use presolve_model::Instance;
use std::marker::Model;

/// An instance that is enabled on what it read, and the version of the problem on which it was found: how many reductions had been
/// applied.
#[derive(Drop)]
pub struct Proposal {
    instance: Instance,
    reading: Reading,
    version: u64,
}

impl Model for Proposal {
    ghost use Rattle.std.specs.Coded.{codes};
    ghost use Rattle.fractions.specs.Lowest.{number_code};
    ghost use Rattle.presolve_model.specs.Given.{Proposed};

    ghost Value = { Proposed };

    ghost coded = { Prim.hlevel (codes, number_code) };

    ghost use Rattle.presolve_model.specs.Enabled.{Enabled};

    ghost view = { λ p. record { instance = p.instance; reading = p.reading; version = p.version } };

    ghost invariant = { λ p. Enabled p.instance p.reading };
}

impl Proposal {
    /// An instance that is enabled on this reading.
    pub fn new(instance: Instance, reading: Reading, version: u64) -> Proposal
        requires { Enabled instance reading }
        ensures { result ≡ record { instance = instance; reading = reading; version = version } }
    {
        Proposal {
            instance,
            reading,
            version,
        }
    }

    /// The instance. It is enabled on the reading.
    pub fn instance(&self) -> Instance
        ensures value { result ≡ self.now.instance }
        ensures enabled { Enabled self.now.instance self.now.reading }
    {
        self.instance
    }

    /// What it read.
    pub fn reading(&self) -> &Reading
        ensures { result.now ≡ self.now.reading }
    {
        &self.reading
    }

    /// The version of the problem on which it was found.
    pub fn version(&self) -> u64
        ensures { result ≡ self.now.version }
    {
        self.version
    }
}
