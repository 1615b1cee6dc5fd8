//! Laws of the definitions that the contracts cite. The functions do nothing when they run: the contract of each is the law.

ghost use Rattle.std.specs.Prelude.{◌≡◌, ℕ, List, length, All, Option, None, Ok, IfSome};
ghost use Rattle.fractions.specs.Number.{Number, zero_ℚ};
ghost use Rattle.fractions.specs.Lowest.{Fits};
ghost use Rattle.lp_model.specs.Names.{Differ};
ghost use Rattle.fractions.specs.declared.Numbers.TheVariants.{Fractions};
ghost use Rattle.number_texts.specs.Read.{read_of};
ghost use Rattle.point_text.specs.Values.{value_of};
ghost use Rattle.point_text.specs.Reading.{first_fault, said, point_of};
ghost use Rattle.point_text.specs.Given.{IsGiven};
ghost use Rattle.point_text.specs.SolutionText.{solution_text};
ghost use Rattle.point_text.specs.PlainNames.{Plain};
ghost use Rattle.point_text.specs.PairText.{pair_fault, pair_point, pair_duals, pair_text, pair_fault_by, pair_point_by, pair_duals_by, pair_text_by};
ghost use Rattle.point_text.specs.WrittenNames.{AreNumbered, AreNumberedBy};

use exact_texts::Textual;
use fractions::frac::Frac;

/// What is written of columns whose names are plain and differ has no fault, and gives the values
/// again.
pub fn written_solution_is_read()
    ensures fault { (names : List (List ℕ)) (values : List Number) → All Plain names → Differ names →
        length values ≡ length names → All Fits values → first_fault names (solution_text names values) ≡ None }
    ensures point { (names : List (List ℕ)) (values : List Number) → All Plain names → Differ names →
        length values ≡ length names → All Fits values → point_of names (solution_text names values) ≡ values }
{
    <Frac as Textual>::reads_again();
    <Frac as Textual>::is_field();
}

/// What is written of a pair has no fault, and gives the point and the duals again: the columns' names
/// are plain and differ, and with duals so are the rows' names.
pub fn written_pair_is_read()
    ensures fault { (columns rows : List (List ℕ)) (point : List Number) (duals : Option (List Number)) → AreNumbered columns point → IfSome duals (λ d. AreNumbered rows d) →
        pair_fault columns rows (pair_text columns rows point duals) ≡ None }
    ensures point { (columns rows : List (List ℕ)) (point : List Number) (duals : Option (List Number)) → AreNumbered columns point →
        pair_point columns (pair_text columns rows point duals) ≡ point }
    ensures duals { (columns rows : List (List ℕ)) (point : List Number) (duals : Option (List Number)) → AreNumbered columns point → IfSome duals (λ d. AreNumbered rows d) →
        pair_duals rows (pair_text columns rows point duals) ≡ duals }
{
    written_pair_is_read_in_kind::<Frac>();
}

/// By numbers of each kind, what is written of a pair has no fault, and gives the point and the duals again: the columns' names are plain and
/// differ, with duals so are the rows' names, and each number is short enough to be read again.
pub fn written_pair_is_read_in_kind<T: Textual>()
    ensures fault { (columns rows : List (List ℕ)) (point : List Number) (duals : Option (List Number)) → AreNumberedBy T.texts.IsShort columns point → IfSome duals (λ d. AreNumberedBy T.texts.IsShort rows d) →
        pair_fault_by T.texts.reading columns rows (pair_text_by T.texts.writing columns rows point duals) ≡ None }
    ensures point { (columns rows : List (List ℕ)) (point : List Number) (duals : Option (List Number)) → AreNumberedBy T.texts.IsShort columns point →
        pair_point_by T.texts.reading columns (pair_text_by T.texts.writing columns rows point duals) ≡ point }
    ensures duals { (columns rows : List (List ℕ)) (point : List Number) (duals : Option (List Number)) → AreNumberedBy T.texts.IsShort columns point → IfSome duals (λ d. AreNumberedBy T.texts.IsShort rows d) →
        pair_duals_by T.texts.reading rows (pair_text_by T.texts.writing columns rows point duals) ≡ duals }
{
    T::reads_again();
    T::is_field();
}

/// A text without a fault gives a name the number of each line that names it, and 0 where no line
/// does.
pub fn values_are_given()
    ensures given { (names : List (List ℕ)) (text name number : List ℕ) → first_fault names text ≡ None →
        IsGiven text name number → read_of Fractions number ≡ Ok (value_of (said text) name) }
    ensures missing { (text name : List ℕ) →
        ((number : List ℕ) → ¬ (IsGiven text name number)) → value_of (said text) name ≡ zero_ℚ }
{}
