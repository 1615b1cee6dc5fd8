//! The record of each kind of reduction.

mod bound_tightening;
mod coefficient_tightening;
mod column_record;
mod dominated_column;
mod doubleton_equation;
mod fixed_column;
mod forcing_row;
mod free_column_singleton;
mod parallel_columns;
mod parallel_rows;
mod row_record;
mod singleton_row;
mod slack_column_singleton;

pub use bound_tightening::BoundTightening;
pub use coefficient_tightening::CoefficientTightening;
pub use column_record::ColumnRecord;
pub use dominated_column::DominatedColumn;
pub use doubleton_equation::DoubletonEquation;
pub use fixed_column::FixedColumn;
pub use forcing_row::ForcingRow;
pub use free_column_singleton::FreeColumnSingleton;
pub use parallel_columns::ParallelColumns;
pub use parallel_rows::ParallelRows;
pub use row_record::RowRecord;
pub use singleton_row::SingletonRow;
pub use slack_column_singleton::SlackColumnSingleton;
