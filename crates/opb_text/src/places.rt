//! How far a text has come.

/// What a text's last token was, as far as it matters to what may stand next.
#[derive(Clone, Copy, Debug, PartialEq, Eq)]
pub enum Place {
    /// There is none.
    Start,
    /// The end of a statement.
    Between,
    /// `min:`.
    Minimum,
    /// The number of a term of `min:`.
    CostNumber,
    /// The literal of a term of `min:`.
    CostLiteral,
    /// The number of a term of a constraint.
    Number,
    /// The literal of a term of a constraint.
    Literal,
    /// The relation of a constraint.
    Relation,
    /// The right side of a constraint.
    RightSide,
}
