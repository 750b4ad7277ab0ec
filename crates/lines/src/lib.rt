// One line of an archive, read and written (docs/FORMAT.md has its form, docs/OPERATIONS.md under "One line: reading and writing" what reader and
// writer answer); the lines of columns, and lines read as numbers alone; and the line that the audit program prints.
#![tactic(auto)]

mod column;
mod fault;
mod field;
mod fields;
/// What is proved of writer and reader together, and of a line's bytes.
pub mod laws;
mod line;
mod listed;
mod number;
mod numbers;
mod opening;
mod reading;
mod report;
mod writing;

pub use column::Column;
pub use field::write_field;
pub use line::{
    EditionLine, FILE_PRESSURE, Front, Layout, Line, MayCome, RefusedAt, TOTALS_FIELDS, Totals,
};
pub use numbers::{Numbers, NumbersOf, ReadNumbers, read_numbers};
pub use opening::OPENING_LENGTH;
pub use reading::{ReadLine, read_line};
pub use report::{OutputLine, Report, report_line};
pub use writing::write_line;
