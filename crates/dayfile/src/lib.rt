// The day file: its lines and their fields, calls out of lines, answers into lines.
#![tactic(auto)]

mod answers;
mod calls;
mod field;
mod fields;
mod kinds;
mod reader;
mod slip;
mod values;

pub use answers::write_answer;
pub use calls::{call_letter, read_call};
pub use field::Field;
pub use fields::Fields;
pub use kinds::{Kind, read_kind};
pub use reader::Lines;
pub use rulebook::Fault;
