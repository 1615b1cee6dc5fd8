//! The rules of records.

/// A rule, by the name that it has in the record text.
#[derive(Clone, Copy, Debug, PartialEq, Eq)]
pub enum Rule {
    /// An empty row.
    K1,
    /// A row with one entry.
    K2,
    /// A fixed column.
    K3,
    /// Bounds that were rounded.
    K4,
    /// A redundant row.
    K5,
    /// A redundant side.
    K6,
    /// A forcing row.
    K7,
    /// A bound that was tightened.
    K8,
    /// A coefficient that was tightened.
    K9,
    /// A column that was fixed at a bound.
    K10,
    /// A dominated column.
    K11,
    /// An equation of two columns.
    K12,
    /// A free column singleton.
    K13,
    /// A slack column singleton.
    K14,
    /// Parallel rows.
    K15,
    /// Parallel columns.
    K16,
    /// An empty column.
    K17,
}
