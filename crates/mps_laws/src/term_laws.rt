//! The terms of columns ascend.
ghost use Rattle.std.specs.Prelude.{◌≡◌, ℕ, List, length, All};
ghost use Rattle.lp_model.specs.declared.program.ColumnDef.{ColumnDef};
ghost use Rattle.lp_model.specs.Sparse.{Ascends};
ghost use Rattle.mps_profile.specs.Cards.{Card};
ghost use Rattle.mps_profile.specs.Program.{row_id, row_defs, terms_of, program_in};
ghost use Rattle.mps_profile.specs.declared.dialect.Dialect.{Dialect};
ghost use Rattle.mps_profile.specs.declared.progress.Told.{Told};

/// The terms of each column have ascending ids of rows, and none is 0.
pub fn terms_ascend()
    ensures ids { (dialect : Dialect) (cards : List Card) (n : ℕ) → length (row_defs dialect cards n) ≡ row_id cards n }
    ensures terms { (dialect : Dialect) (cards : List Card) (j n : ℕ) → Ascends 0 (length (row_defs dialect cards n)) (terms_of dialect cards j n) }
    ensures columns { (dialect : Dialect) (sense : Told) (cards : List Card) → All (λ (c : ColumnDef). Ascends 0 (length (program_in dialect sense cards).rows) c.entries) (program_in dialect sense cards).columns }
{}
