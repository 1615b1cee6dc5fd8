//! What is said of the same programs, points and records is one; and so is what a command prints and writes of the same bytes.

ghost use Rattle.std.specs.Prelude.{◌≡◌, ℕ, Bool, List, Option};
ghost use Rattle.fractions.specs.Number.{Number};
ghost use Rattle.exact_texts.specs.Kinds.{room_of};
ghost use Rattle.lp_model.specs.ProgramData.{ProgramData};
ghost use Rattle.undo_records.specs.Postsolve.{Postsolve};
ghost use Rattle.postsolve_command.specs.Lifted.{IsLifted, Stops};
ghost use Rattle.two_runs.specs.SameAnswers.{ChecksAreOne, GensAreOne, MigratesAreOne, PostsolvesAreOne, PresolvesAreOne};

use ray_check::laws::verdicts_on_rays_are_one;
use run_laws::conclusions_are_one;

/// What records make of a point, with its duals if it has duals, is one, by numbers of any width or by those that have room in a `Frac`: the
/// lifted numbers; or where they have no room, the line that says so; and never both.
pub fn liftings_are_one()
    ensures lifted { (wide : Bool) (records : Postsolve) (program : ProgramData) (point : List Number) (duals : Option (List Number)) (xs ys : List Number) (us vs : Option (List Number))
        → IsLifted (room_of wide) records program point duals xs us → IsLifted (room_of wide) records program point duals ys vs → (xs ≡ ys) × (us ≡ vs) }
    ensures stopped { (wide : Bool) (records : Postsolve) (program : ProgramData) (point : List Number) (duals : Option (List Number)) (said more : List ℕ)
        → Stops (room_of wide) records program point duals said → Stops (room_of wide) records program point duals more → said ≡ more }
    ensures apart { (wide : Bool) (records : Postsolve) (program : ProgramData) (point : List Number) (duals : Option (List Number)) (xs : List Number) (us : Option (List Number)) (said : List ℕ)
        → IsLifted (room_of wide) records program point duals xs us → Stops (room_of wide) records program point duals said → ⊥ }
{}

/// `presolve` with the same words on the same IN, by one worker or with `--ordered`, ends with the same status, and prints the same; and it
/// leaves the same OUT and REC, or the same RAY. That is so where no read and no write failed, and memory did not run out.
pub fn presolves_are_one()
    ensures { PresolvesAreOne }
{
    conclusions_are_one();
}

/// The same of `check`, on the same IN and SOL, be it a solution or a ray. It writes nothing.
pub fn checks_are_one()
    ensures { ChecksAreOne }
{
    verdicts_on_rays_are_one();
}

/// The same of `postsolve`, on the same OUT, REC and SOL: it leaves the same RESULT.
pub fn postsolves_are_one()
    ensures { PostsolvesAreOne }
{}

/// The same of `migrate`, on the same REC: it leaves the same NEW.
pub fn migrates_are_one()
    ensures { MigratesAreOne }
{}

/// The same of `gen`, with the same numbers: it writes nothing.
pub fn gens_are_one()
    ensures { GensAreOne }
{
    conclusions_are_one();
}
