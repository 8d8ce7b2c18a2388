//! Task texts: planning tasks read from text and written to it.
#![tactic(auto)]

mod atom_lists;
pub mod fault;
mod forms;
pub mod laws;
pub mod read;
pub mod write;

pub use fault::{TaskFault, TaskKind, TaskLimit, TaskRefusal};
pub use laws::{laws_of_read_tasks, one_answer, text_by_lines};
pub use read::read_task;
pub use write::write_task;
