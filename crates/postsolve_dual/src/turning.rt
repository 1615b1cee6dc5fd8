//! From the sense of the file to the minimizing one, and back.

ghost use Rattle.std.specs.Prelude.{◌≡◌, ℕ, length};
ghost use Rattle.lp_model.specs.Vectors.{vector_of};
ghost use Rattle.undo_pairs.specs.Numbers.{IsSized, priced_of, turned_for};

use crate::pair::PairBuf;
use exact_numbers::{Exact, Numbers};
use lp_model::Sense;

impl<T: Exact> PairBuf<T> {
    /// Turns duals and reduced costs from the sense of the file to the minimizing one, or back: for max they are negated.
    pub(crate) fn turn(&mut self, sense: Sense)
        ensures sized { (m n : ℕ) → IsSized m n self.old → IsSized m n self.new }
        ensures rows { length self.new.duals ≡ length self.old.duals }
        ensures point { self.new.point ≡ self.old.point }
        ensures turned { priced_of self.new ≡ turned_for sense (priced_of self.old) }
    {
        match sense {
            Sense::Min => {}
            Sense::Max => {
                self.duals.negate();
                self.reduced_costs.negate();
            }
        }
    }

    /// The point, and the duals in the sense of the file, which is given: both by original id.
    pub fn into_parts(self, sense: Sense) -> (Numbers<T>, Numbers<T>)
        ensures rows { length result.1 ≡ length self.duals }
        ensures point { result.0 ≡ self.point }
        ensures duals { vector_of result.1 ≡ (turned_for sense (priced_of self)).y }
    {
        let mut pair = self;
        pair.turn(sense);
        (pair.point, pair.duals)
    }
}
