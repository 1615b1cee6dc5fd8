//! What the texts of a presolve and a postsolve say together.

ghost use Rattle.std.specs.Prelude.{Bool};
ghost use Rattle.exact_texts.specs.Kinds.{texts_of};
ghost use Rattle.exact_texts.specs.Texts.{frac_texts};
ghost use Rattle.whole_way.specs.Texts.{PairsAgain};
ghost use Rattle.whole_way.specs.Laws.{BestComesBackWhole, ComesBackWhole, EndsAreToldOfTexts, NarrowIsWide, PairsComeBackWhole, TextsComeBack};

use exact_texts::Textual;
use fractions::frac::Frac;
use point_text::written_pair_is_read_in_kind;
use wide_numbers::Wide;
use wide_texts::wide_text_is_alike;

/// The texts that presolve writes, read as a postsolve reads them, have no fault. They give the reduced program and the records that
/// presolve concluded with, and these go together: so a postsolve refuses neither text, and undoes these very records.
pub fn texts_come_back()
    ensures { TextsComeBack }
{}

/// What `end fixpoint` and the count of skipped reductions say of the problem that presolve left, with original ids, they say of the reduced
/// program as it is written, whose rows and columns have new ids; and so does `end limit`. How often a bound was tightened is told there by
/// the records too, at the original id of its column, which the labels tell.
pub fn ends_are_told_of_texts()
    ensures { EndsAreToldOfTexts }
{}

/// A solution of the reduced program's text that is undone by the text of records comes back: the text that is written of it has no fault,
/// and gives the program a feasible point that costs the offset more; and a best point, if the solution was a best one. With duals, what meets the
/// optimality conditions comes back to what meets them, and so proves that no feasible point costs better.
pub fn solutions_come_back()
    ensures comes_back { ComesBackWhole frac_texts }
    ensures best { BestComesBackWhole frac_texts }
    ensures pairs { PairsComeBackWhole frac_texts }
{
    solutions_come_back_in_kind::<Frac>();
}

/// The same by numbers of each kind, where what is written of the lifted numbers is short enough to be read again. Of numbers of any width it
/// is asked only that their terms have no more digits than are read, and never that they have room.
pub fn solutions_come_back_in_kind<T: Textual>()
    ensures comes_back { ComesBackWhole T.texts }
    ensures best { BestComesBackWhole T.texts }
    ensures pairs { PairsComeBackWhole T.texts }
{
    written_pair_is_read_in_kind::<T>();
}

/// What is written of a pair of each of the two kinds that commands may be asked for, and is short enough, is read again.
pub fn pairs_are_read_again()
    ensures { (wide : Bool) → PairsAgain (texts_of wide) }
{
    written_pair_is_read_in_kind::<Frac>();
    written_pair_is_read_in_kind::<Wide>();
}

/// A solution's text that is read where its numbers have to have room in a `Frac` is read alike where they may have any width.
pub fn narrow_solutions_are_wide()
    ensures { NarrowIsWide }
{
    wide_text_is_alike();
}
