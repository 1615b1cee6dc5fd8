//! Programs, their problems, and the programs that are written of them.

ghost use Rattle.std.specs.Prelude.{◌≡◌, ℕ, List, map};
ghost use Rattle.fractions.specs.Number.{Number, zero_ℚ};
ghost use Rattle.fractions.specs.declared.Numbers.{Numbers};
ghost use Rattle.lp_model.specs.declared.program.Sense.{Sense};
ghost use Rattle.lp_model.specs.declared.program.Sense.TheVariants.{Min};
ghost use Rattle.lp_model.specs.LinearProgram.{LinearProgram};
ghost use Rattle.lp_model.specs.Meaning.{meaning};
ghost use Rattle.lp_model.specs.Names.{WellNamed, names_of_columns, names_of_rows};
ghost use Rattle.lp_model.specs.ProgramData.{ProgramData};
ghost use Rattle.lp_model.specs.Reductions.{Reduces, ReducesPairs};
ghost use Rattle.lp_model.specs.Vectors.{vector_of};
ghost use Rattle.lp_model.specs.Writable.{EntriesAscend, Writable, WritableNumber};
ghost use Rattle.lp_passages.specs.Renumbering.{IsRest, gathered, spread, spread_pair, written};
ghost use Rattle.lp_model.specs.Turning.{minimizing};
ghost use Rattle.undo_records.specs.declared.label.Label.{Label};
ghost use Rattle.undo_records.specs.Lift.{placed};
ghost use Rattle.problem_model.specs.declared.line.Line.{Line};
ghost use Rattle.problem_model.specs.Problems.{IsSparse};
ghost use Rattle.problem_model.specs.Programs.{IsProblemOf, live_ids, written_program};
ghost use Rattle.problem_model.specs.Showing.{shown};
ghost use Rattle.problem_model.specs.Sparse.{Sparse};
ghost use Rattle.problem_model.specs.Writing.{IsWritable};
ghost use Rattle.program_laws.specs.Alike.{AreAlike};
ghost use Rattle.program_laws.specs.Chosen.{names_at};
ghost use Rattle.program_laws.specs.Shapes.{IsOf, NoCrossedSides};

/// The problem of a program shows the program as it is minimized.
pub fn problems_show_programs()
    ensures { (program : ProgramData) (p : Sparse) → EntriesAscend program → IsProblemOf program p → shown p ≡ minimizing program.sense (meaning program) }
{}

/// Linear programs that are the same at their rows and columns have the same points at the same costs, and the same pairs.
pub fn programs_alike_reduce()
    ensures points { (d : Sense) (M R : LinearProgram) → AreAlike M R → Reduces d M R (λ x. x) zero_ℚ }
    ensures pairs { (d : Sense) (M R : LinearProgram) → AreAlike M R → ReducesPairs d M R (λ p. p) }
{}

/// The program that is written of a problem, as it is minimized, is the shown one without the ids of what was deleted.
pub fn written_programs_are_shown()
    ensures same { (program : ProgramData) (p : Sparse) → IsSparse p → IsOf program p → AreAlike (minimizing program.sense (meaning (written_program program p))) (written (shown p) (live_ids p.matrix.rows) (live_ids p.matrix.columns)) }
    ensures rest { (p : Sparse) → IsSparse p → IsRest (shown p) (live_ids p.matrix.rows) (live_ids p.matrix.columns) }
    ensures points { (program : ProgramData) (p : Sparse) → IsSparse p → IsOf program p → Reduces Min (shown p) (minimizing program.sense (meaning (written_program program p))) (spread (live_ids p.matrix.columns)) zero_ℚ }
    ensures pairs { (program : ProgramData) (p : Sparse) → IsSparse p → IsOf program p → ReducesPairs Min (shown p) (minimizing program.sense (meaning (written_program program p))) (spread_pair (live_ids p.matrix.rows) (live_ids p.matrix.columns)) }
    ensures points_back { (program : ProgramData) (p : Sparse) → IsSparse p → IsOf program p → Reduces Min (minimizing program.sense (meaning (written_program program p))) (shown p) (gathered (live_ids p.matrix.columns)) zero_ℚ }
    ensures ascends { (program : ProgramData) (p : Sparse) → IsSparse p → IsOf program p → EntriesAscend (written_program program p) }
{}

/// What is written of a problem can be written where the problem can.
pub fn written_programs_can_be_written()
    ensures start { (numbers : Numbers) (program : ProgramData) (p : Sparse) → Writable numbers program → IsProblemOf program p → IsWritable numbers p }
    ensures writable { (numbers : Numbers) (program : ProgramData) (p : Sparse) → IsSparse p → IsOf program p → IsWritable numbers p → NoCrossedSides p → WritableNumber numbers program.constant → Writable numbers (written_program program p) }
{}

/// The written program has the names of what is live, in order. They are names, and differ, where the original's are and do.
pub fn written_programs_keep_names()
    ensures rows { (program : ProgramData) (p : Sparse) → IsSparse p → IsOf program p → names_of_rows (written_program program p).rows ≡ names_at (names_of_rows program.rows) p.matrix.rows }
    ensures columns { (program : ProgramData) (p : Sparse) → IsSparse p → IsOf program p → names_of_columns (written_program program p).columns ≡ names_at (names_of_columns program.columns) p.matrix.columns }
    ensures named { (program : ProgramData) (p : Sparse) → IsSparse p → IsOf program p → WellNamed program.objective program.rows program.columns → WellNamed (written_program program p).objective (written_program program p).rows (written_program program p).columns }
{}

/// A point of the written program, placed at the original columns, is the one spread over the ids of the live columns.
pub fn placed_points_are_spread()
    ensures { (columns : List Label) (lines : List Line) (xs : List Number) → map (λ c. c.live) columns ≡ map (λ l. l.live) lines → vector_of (placed columns xs) ≡ spread (live_ids lines) (vector_of xs) }
{}
