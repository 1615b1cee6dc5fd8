//! What a verdict says of a point, and of a point with duals. The functions do nothing when they run: each states a law, and its check proves it.

ghost use Rattle.std.specs.Prelude.{◌≡◌, ℕ};
ghost use Rattle.fractions.specs.Number.{Number};
ghost use Rattle.lp_model.specs.declared.program.Sense.{Sense};
ghost use Rattle.lp_model.specs.Vectors.{Vector};
ghost use Rattle.lp_model.specs.LinearProgram.{LinearProgram, cost_at, Feasible};
ghost use Rattle.lp_model.specs.Optimality.{Continuous, Meets};
ghost use Rattle.lp_model.specs.Room.{ValuesFit, CostFits};
ghost use Rattle.lp_model.specs.Senses.{NoWorse};
ghost use Rattle.lp_check.specs.declared.verdicts.Item.{Item};
ghost use Rattle.lp_check.specs.declared.verdicts.Limit.{Limit};
ghost use Rattle.lp_check.specs.declared.verdicts.Verdict.{Verdict};
ghost use Rattle.lp_check.specs.declared.verdicts.Verdict.TheVariants.{Yes, No, Past};
ghost use Rattle.lp_check.specs.declared.pair_verdicts.Misplaced.{Misplaced};
ghost use Rattle.lp_check.specs.declared.pair_verdicts.PairVerdict.{PairVerdict};
ghost use Rattle.lp_check.specs.declared.pair_verdicts.PairVerdict.TheVariants.{OnPoint, Dual, ReducedCost, PastReducedCost};
ghost use Rattle.fractions.specs.Room.{in_any_width};
ghost use Rattle.lp_check.specs.Deciding.{HasNoRoomIn, DecidesIn, Decides};
ghost use Rattle.lp_prices.specs.Prices.{ReducedCostFitsIn, ReducedCostsFit};
ghost use Rattle.lp_check.specs.DecidingPairs.{DecidesPairIn, DecidesPair};

use exact_numbers::Exact;

/// A point with the verdict yes is feasible, its sums have room, and the verdict has its cost.
pub fn yes_is_feasible()
    ensures feasible { (M : LinearProgram) (x : Vector) (c : Number) → Decides M x (Yes c) → Feasible M x }
    ensures values { (M : LinearProgram) (x : Vector) (c : Number) → Decides M x (Yes c) → ValuesFit M x }
    ensures room { (M : LinearProgram) (x : Vector) (c : Number) → Decides M x (Yes c) → CostFits M x }
    ensures cost { (M : LinearProgram) (x : Vector) (c : Number) → Decides M x (Yes c) → c ≡ cost_at M x }
{}

/// A point with the verdict no is not feasible.
pub fn no_is_infeasible()
    ensures { (M : LinearProgram) (x : Vector) (item : Item) (v : Number) (limit : Limit) → Decides M x (No item v limit) → Feasible M x → ⊥ }
{}

/// Past is said only where a sum has no room.
pub fn past_has_no_room()
    ensures { (M : LinearProgram) (x : Vector) (item : Item) → Decides M x (Past item) → ValuesFit M x → CostFits M x → ⊥ }
{}

/// Where all sums have room, the verdict on a feasible point is yes, with its cost.
pub fn feasible_is_yes()
    ensures { (M : LinearProgram) (x : Vector) (verdict : Verdict Number) → Feasible M x → ValuesFit M x → CostFits M x → Decides M x verdict → verdict ≡ Yes (cost_at M x) }
{}

/// There is one verdict on a point.
pub fn verdicts_are_one()
    ensures { (M : LinearProgram) (x : Vector) (one other : Verdict Number) → Decides M x one → Decides M x other → one ≡ other }
{}

/// A point and duals with the verdict yes, of a program where no column has to be whole or is semi-continuous, meet the optimality
/// conditions. The verdict has the point's cost, no feasible point has a better one, and all sums have room.
pub fn yes_with_duals_is_best()
    ensures meets { (s : Sense) (M : LinearProgram) (x y : Vector) (c : Number) → Continuous M → DecidesPair s M x y (OnPoint (Yes c)) → Meets s M x y }
    ensures best { (s : Sense) (M : LinearProgram) (x y : Vector) (c : Number) → Continuous M → DecidesPair s M x y (OnPoint (Yes c)) → (w : Vector) → Feasible M w → NoWorse s c (cost_at M w) }
    ensures cost { (s : Sense) (M : LinearProgram) (x y : Vector) (c : Number) → DecidesPair s M x y (OnPoint (Yes c)) → c ≡ cost_at M x }
    ensures values { (s : Sense) (M : LinearProgram) (x y : Vector) (c : Number) → DecidesPair s M x y (OnPoint (Yes c)) → ValuesFit M x }
    ensures reduced_costs { (s : Sense) (M : LinearProgram) (x y : Vector) (c : Number) → DecidesPair s M x y (OnPoint (Yes c)) → ReducedCostsFit M y }
    ensures room { (s : Sense) (M : LinearProgram) (x y : Vector) (c : Number) → DecidesPair s M x y (OnPoint (Yes c)) → CostFits M x }
{}

/// A point and duals with the verdict no do not meet the optimality conditions.
pub fn no_with_duals_is_not_optimal()
    ensures point { (s : Sense) (M : LinearProgram) (x y : Vector) (item : Item) (v : Number) (limit : Limit) → DecidesPair s M x y (OnPoint (No item v limit)) → Meets s M x y → ⊥ }
    ensures dual { (s : Sense) (M : LinearProgram) (x y : Vector) (i : ℕ) (found : Misplaced Number) → DecidesPair s M x y (Dual i found) → Meets s M x y → ⊥ }
    ensures reduced_cost { (s : Sense) (M : LinearProgram) (x y : Vector) (j : ℕ) (found : Misplaced Number) → DecidesPair s M x y (ReducedCost j found) → Meets s M x y → ⊥ }
{}

/// With duals too, past is said only where a sum has no room.
pub fn past_with_duals_has_no_room()
    ensures point { (s : Sense) (M : LinearProgram) (x y : Vector) (item : Item) → DecidesPair s M x y (OnPoint (Past item)) → ValuesFit M x → CostFits M x → ⊥ }
    ensures reduced_cost { (s : Sense) (M : LinearProgram) (x y : Vector) (j : ℕ) → DecidesPair s M x y (PastReducedCost j) → ReducedCostsFit M y → ⊥ }
{}

/// Where all sums have room, the verdict on a point and duals that meet the optimality conditions is yes, with the cost.
pub fn optimal_is_yes()
    ensures { (s : Sense) (M : LinearProgram) (x y : Vector) (verdict : PairVerdict Number) → Meets s M x y → ValuesFit M x → ReducedCostsFit M y → CostFits M x → DecidesPair s M x y verdict
        → verdict ≡ OnPoint (Yes (cost_at M x)) }
{}

/// There is one verdict on a point with duals.
pub fn verdicts_with_duals_are_one()
    ensures { (s : Sense) (M : LinearProgram) (x y : Vector) (one other : PairVerdict Number) → DecidesPair s M x y one → DecidesPair s M x y other → one ≡ other }
{
    verdicts_are_one();
}

/// By numbers of each kind there is one verdict on a point, and one on a point with duals.
pub fn verdicts_of_a_kind_are_one<T: Exact>()
    ensures point { (M : LinearProgram) (x : Vector) (one other : Verdict Number) → DecidesIn T.room M x one → DecidesIn T.room M x other → one ≡ other }
    ensures pair { (s : Sense) (M : LinearProgram) (x y : Vector) (one other : PairVerdict Number) → DecidesPairIn T.room s M x y one → DecidesPairIn T.room s M x y other → one ≡ other }
{}

/// Numbers of any width have room for each sum.
pub fn any_width_has_room()
    ensures sums { (M : LinearProgram) (x : Vector) (item : Item) → HasNoRoomIn in_any_width M x item → ⊥ }
    ensures reduced_costs { (M : LinearProgram) (y : Vector) (j : ℕ) → ReducedCostFitsIn in_any_width M y j }
{}

/// By numbers of any width the verdict on a point is yes, with its cost, exactly where it is feasible, and never past.
pub fn yes_in_any_width_is_feasible()
    ensures feasible { (M : LinearProgram) (x : Vector) (c : Number) → DecidesIn in_any_width M x (Yes c) → Feasible M x }
    ensures cost { (M : LinearProgram) (x : Vector) (c : Number) → DecidesIn in_any_width M x (Yes c) → c ≡ cost_at M x }
    ensures yes { (M : LinearProgram) (x : Vector) (verdict : Verdict Number) → Feasible M x → DecidesIn in_any_width M x verdict → verdict ≡ Yes (cost_at M x) }
    ensures no { (M : LinearProgram) (x : Vector) (item : Item) (v : Number) (limit : Limit) → DecidesIn in_any_width M x (No item v limit) → Feasible M x → ⊥ }
    ensures past { (M : LinearProgram) (x : Vector) (item : Item) → DecidesIn in_any_width M x (Past item) → ⊥ }
{
    any_width_has_room();
}

/// By numbers of any width the verdict on a point and duals, of a program where no column has to be whole or is semi-continuous, is
/// yes, with the cost, exactly where they meet the optimality conditions, and never past. No feasible point has a better cost.
pub fn yes_with_duals_in_any_width_is_best()
    ensures meets { (s : Sense) (M : LinearProgram) (x y : Vector) (c : Number) → Continuous M → DecidesPairIn in_any_width s M x y (OnPoint (Yes c)) → Meets s M x y }
    ensures best { (s : Sense) (M : LinearProgram) (x y : Vector) (c : Number) → Continuous M → DecidesPairIn in_any_width s M x y (OnPoint (Yes c)) → (w : Vector) → Feasible M w → NoWorse s c (cost_at M w) }
    ensures cost { (s : Sense) (M : LinearProgram) (x y : Vector) (c : Number) → DecidesPairIn in_any_width s M x y (OnPoint (Yes c)) → c ≡ cost_at M x }
    ensures yes { (s : Sense) (M : LinearProgram) (x y : Vector) (verdict : PairVerdict Number) → Meets s M x y → DecidesPairIn in_any_width s M x y verdict → verdict ≡ OnPoint (Yes (cost_at M x)) }
    ensures past { (s : Sense) (M : LinearProgram) (x y : Vector) (item : Item) → DecidesPairIn in_any_width s M x y (OnPoint (Past item)) → ⊥ }
    ensures past_reduced_cost { (s : Sense) (M : LinearProgram) (x y : Vector) (j : ℕ) → DecidesPairIn in_any_width s M x y (PastReducedCost j) → ⊥ }
{
    any_width_has_room();
}
