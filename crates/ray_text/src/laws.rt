//! Laws of the definitions that the contracts cite. Each function is empty: its contract is the law.

ghost use Rattle.std.specs.Prelude.{◌≡◌, ℕ, List, length, codes, true, None, Ok};
ghost use Rattle.fractions.specs.declared.Numbers.TheVariants.{Fractions};
ghost use Rattle.number_texts.specs.Read.{read_of};
ghost use Rattle.lp_model.specs.Names.{WellNamed, names_of_rows, names_of_columns};
ghost use Rattle.lp_model.specs.ProgramData.{ProgramData};
ghost use Rattle.lp_rays.specs.RayData.{RayData, IsSized};
ghost use Rattle.mps_profile.specs.Texts.{Text};
ghost use Rattle.ray_text.specs.Given.{no_weights};
ghost use Rattle.ray_text.specs.GivenTo.{IsGiven, row_weights, column_weights};
ghost use Rattle.ray_text.specs.RayLines.{is_ray_text};
ghost use Rattle.ray_text.specs.Reading.{ray_fault, ray_in};
ghost use Rattle.ray_text.specs.RayText.{HasRoom, ray_text};

/// What is written of a ray is the text of one, has no fault, and gives the ray again. Of the names nothing is asked but what each
/// program has.
pub fn written_ray_is_read()
    ensures starts { (rows columns : List (List ℕ)) (r : RayData) → is_ray_text (ray_text rows columns r) ≡ true }
    ensures fault { (p : ProgramData) (r : RayData) → WellNamed p.objective p.rows p.columns → IsSized (length p.rows) (length p.columns) r → HasRoom r →
        ray_fault (names_of_rows p.rows) (names_of_columns p.columns) (ray_text (names_of_rows p.rows) (names_of_columns p.columns) r) ≡ None }
    ensures ray { (p : ProgramData) (r : RayData) → WellNamed p.objective p.rows p.columns → IsSized (length p.rows) (length p.columns) r → HasRoom r →
        ray_in (names_of_rows p.rows) (names_of_columns p.columns) (ray_text (names_of_rows p.rows) (names_of_columns p.columns) r) ≡ r }
{}

/// A text without a fault gives to the name of a row, or of a column, the numbers of each line that names it, and zeros where no line
/// does.
pub fn weights_are_given()
    ensures row { (rows columns : List Text) (text name lower upper : List ℕ) → ray_fault rows columns text ≡ None → IsGiven (codes "row") text name lower upper →
        (read_of Fractions lower ≡ Ok (row_weights text name).lower) × (read_of Fractions upper ≡ Ok (row_weights text name).upper) }
    ensures column { (rows columns : List Text) (text name lower upper : List ℕ) → ray_fault rows columns text ≡ None → IsGiven (codes "column") text name lower upper →
        (read_of Fractions lower ≡ Ok (column_weights text name).lower) × (read_of Fractions upper ≡ Ok (column_weights text name).upper) }
    ensures no_row { (text name : List ℕ) → ((lower upper : List ℕ) → ¬ (IsGiven (codes "row") text name lower upper)) → row_weights text name ≡ no_weights }
    ensures no_column { (text name : List ℕ) → ((lower upper : List ℕ) → ¬ (IsGiven (codes "column") text name lower upper)) → column_weights text name ≡ no_weights }
{}
