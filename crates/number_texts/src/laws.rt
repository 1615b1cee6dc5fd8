//! Laws of the definitions that the contracts cite. Each function is empty: its contract is the
//! law.

ghost use Rattle.std.specs.Prelude.{◌≡◌, ◌≢◌, IsTrue, Bool, List, ℕ};
ghost use Rattle.fractions.specs.Number.{Number};
ghost use Rattle.fractions.specs.Lowest.{Fits};
ghost use Rattle.fractions.specs.declared.Numbers.{Numbers};
ghost use Rattle.fractions.specs.declared.Numbers.TheVariants.{Fractions};
ghost use Rattle.number_texts.specs.declared.reading.ReadNumber.TheVariants.{NotNumber};
ghost use Rattle.number_texts.specs.Form.{Terms, terms_of};
ghost use Rattle.number_texts.specs.Grammar.{IsDecimalForm, IsDecimalText, IsQuotientText, IsNumberText};
ghost use Rattle.number_texts.specs.Read.{is_taken, read_of, read_decimal, read_quotient};
ghost use Rattle.number_texts.specs.Written.{written};

/// What is written is read again.
pub fn written_is_read()
    ensures { (numbers : Numbers) (q : Number) → Fits q →
        IsTrue (is_taken numbers q) → read_of numbers (written q) ≡ Ok q }
{}

/// A text is read as a number, or as one past the range, exactly where it has the form of a number.
pub fn text_is_number()
    ensures read { (numbers : Numbers) (bytes : List ℕ) →
        IsNumberText numbers bytes → read_of numbers bytes ≢ Err NotNumber }
    ensures only { (numbers : Numbers) (bytes : List ℕ) →
        read_of numbers bytes ≢ Err NotNumber → IsNumberText numbers bytes }
{}

/// A text of either form is read as the number of its parts.
pub fn text_has_value()
    ensures decimal { (numbers : Numbers) (bytes : List ℕ) (negative : Bool) (t : Terms) →
        IsDecimalText bytes negative t →
        read_of numbers bytes ≡ read_decimal numbers negative (Some t) }
    ensures quotient { (bytes : List ℕ) (negative : Bool) (over under : List ℕ) →
        IsQuotientText bytes negative over under →
        read_of Fractions bytes ≡ read_quotient negative over under }
{}

/// An unsigned text is cut into the parts of a number with a point and an exponent exactly where it
/// has that form.
pub fn form_has_parts()
    ensures read { (bytes : List ℕ) (t : Terms) → IsDecimalForm bytes t → terms_of bytes ≡ Some t }
    ensures only { (bytes : List ℕ) (t : Terms) → terms_of bytes ≡ Some t → IsDecimalForm bytes t }
{}
