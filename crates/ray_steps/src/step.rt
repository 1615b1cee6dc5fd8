//! What is known of one reduction when a ray is lifted over it.

ghost use Rattle.std.specs.Prelude.{◌≡◌};

use std::marker::Model;
use undo_records::Undo;

/// A record, and whether the lower and the upper of the two ends that its reduction met with others moved.
#[derive(Drop)]
pub struct RayStep {
    undo: Undo,
    low: bool,
    high: bool,
}

impl Model for RayStep {
    ghost use Rattle.std.specs.Coded.{codes};
    ghost use Rattle.fractions.specs.Lowest.{number_code};
    ghost use Rattle.ray_steps.specs.StepBack.{StepBack};

    ghost Value = { StepBack };

    ghost coded = { Prim.hlevel (codes, number_code) };

    ghost view = { λ step. record { undo = step.undo; low = step.low; high = step.high } };
}

impl RayStep {
    /// The step back over the reduction with this record, of whose ends these moved.
    pub fn new(undo: Undo, low: bool, high: bool) -> RayStep
        ensures { result ≡ record { undo = undo; low = low; high = high } }
    {
        RayStep { undo, low, high }
    }

    /// The record.
    pub fn undo(&self) -> &Undo
        ensures { result.now ≡ self.now.undo }
    {
        &self.undo
    }

    /// Whether the lower end moved.
    pub fn low(&self) -> bool
        ensures { result ≡ self.now.low }
    {
        self.low
    }

    /// Whether the upper end moved.
    pub fn high(&self) -> bool
        ensures { result ≡ self.now.high }
    {
        self.high
    }
}
