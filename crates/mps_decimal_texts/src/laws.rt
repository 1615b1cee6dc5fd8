//! Texts of decimal numbers, read with fractions.
ghost use Rattle.std.specs.Prelude.{◌≡◌, ℕ, List, None};
ghost use Rattle.fractions.specs.declared.Numbers.TheVariants.{Decimal, Fractions};
ghost use Rattle.mps_profile.specs.Program.{program_of};
ghost use Rattle.mps_profile.specs.Reading.{first_fault};
ghost use Rattle.mps_profile.specs.declared.dialect.Format.{Format};

/// A text of decimal numbers that has no fault has none where fractions are taken, and gives the same program.
pub fn decimal_texts_are_texts_with_fractions()
    ensures fault { (format : Format) (text : List ℕ) → first_fault (record { format = format; numbers = Decimal }) text ≡ None → first_fault (record { format = format; numbers = Fractions }) text ≡ None }
    ensures program { (format : Format) (text : List ℕ) → first_fault (record { format = format; numbers = Decimal }) text ≡ None → program_of (record { format = format; numbers = Fractions }) text ≡ program_of (record { format = format; numbers = Decimal }) text }
{}
