//! Where tokens may stand, and what is so of the rows then.

ghost use Rattle.std.specs.Prelude.{◌≡◌, List, length, IfSome};
ghost use Rattle.opb_text.specs.Tokens as texts;
ghost use Rattle.opb_text.specs.Statements.{open_row, row_kinds};
ghost use Rattle.opb_text.specs.Places.{behind, is_between};
ghost use Rattle.opb_tokens.specs.Texts.{text_token};
ghost use Rattle.opb_reader.specs.Holding.{IsSilent};
ghost use Rattle.opb_reader.specs.Shapes.{IsReady, IsShaped, kinds_behind, row_behind};

use opb_text::Place;
use opb_tokens::Token;

/// The place behind a token, where it may stand.
pub fn behind(place: Place, token: &Token<'_>) -> Option<Place>
    ensures place { result ≡ behind place (text_token token.now) }
    ensures shape { IfSome result (λ next. (tokens : List texts.Token) → IsShaped place (open_row tokens) (length (row_kinds tokens)) (IsSilent tokens)
        → IsReady (text_token token.now) (open_row tokens) (length (row_kinds tokens)) (IsSilent tokens)
        × IsShaped next (row_behind (text_token token.now) (open_row tokens)) (kinds_behind (text_token token.now) (length (row_kinds tokens))) (IsSilent tokens)) }
{
    match (place, token) {
        (Place::Start, Token::Minimum) => Some(Place::Minimum),
        (Place::Start | Place::Between | Place::Literal, Token::Number(_)) => Some(Place::Number),
        (Place::Minimum | Place::CostLiteral, Token::Number(_)) => Some(Place::CostNumber),
        (Place::Relation, Token::Number(_)) => Some(Place::RightSide),
        (Place::CostNumber, Token::Plain(_) | Token::Negated(_)) => Some(Place::CostLiteral),
        (Place::Number, Token::Plain(_) | Token::Negated(_)) => Some(Place::Literal),
        (Place::Literal, Token::AtLeast | Token::Equal) => Some(Place::Relation),
        (Place::Minimum | Place::CostLiteral | Place::RightSide, Token::End) => Some(
            Place::Between,
        ),
        _ => None,
    }
}

/// Whether a text may end at a place.
pub fn may_end(place: Place) -> bool
    ensures { result ≡ is_between place }
{
    matches!(place, Place::Start | Place::Between)
}
