//! Formats of lines, and how they are read.
//!
//! 1. A file is cut into pieces: its lines in order, up to the first one that is long.
//! 2. A format is a function from the pieces to come, behind so many lines, to what comes of them:
//!    a value with the pieces that are left, or the first fault with its line (`Parser`).
//! 3. So a text has one value or one first fault, and never both: nothing of that is to be proved.
//! 4. A format is put together as its table reads: one line (`line`), and what follows it (`>>=`,
//!    `>>`, `do`). `pure` is a value that is known already.
//! 5. What follows may hang on the value of the line before it: one line of lookahead.
//! 6. Repetition: so many times (`repeat` for a list, `iterate` for a value that goes on), up to a
//!    closing line (`many_till`), or up to the end of the input, lines being skipped (`many`).
//! 7. `end_of_input` is where nothing more may be. That a line is long comes before its form,
//!    and the test of a line says which of its faults comes first.
//! 8. A reader is a small function a part, over a `Source`: the open file and the place in it, as
//!    one value. Its clause is `Reads part old new result`, by the positions of the source.
//! 9. Readers are joined by `?` as their parts are by `do`. Few of them are proved by themselves;
//!    of more, `go` chains what was read, and `stops`, `done` and `last` end the chain. A loop's
//!    invariant is `Goes`, with a law for each repetition.
//! 10. A file is opened by `open` and read through a `Reader`; the answer is what comes of all its
//!     pieces (`IsReadAs`).
//!
//! The place of a reader in its file is one value, that of a `Source`; `Reader` borrows the source
//! and the cutter of lines, since nothing is known, once a value that owns memory is let go, of
//! what it had borrowed. Of a task text, a node file and a log it is said beside the grammar which
//! lines are the text of a value, with a law both ways, and of a plan file in plain words what
//! comes of each.
#![tactic(auto)]

pub mod fault;
pub mod laws;
pub mod lines;
pub mod reader;
pub mod source;

pub use fault::ParseFault;
pub use laws::laws_of_repetition;
pub use lines::{
    at_line, at_most, decimal, end_of_input, has_line, next_line, number_behind, number_line,
    numbered_line, short_decimal, word_line,
};
pub use reader::{Reader, open};
pub use source::Source;
