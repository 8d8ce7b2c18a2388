//! What families of state sets share: literals, clauses, listed states, cubes, queries, and the
//! traits with their laws.
#![tactic(auto)]

pub mod clause;
pub mod clauses;
pub mod cube;
pub mod cursor;
pub mod family;
mod few;
pub mod finding;
mod flat;
pub mod listed_state;
pub mod literal;
mod narrow;
pub mod operand;
pub mod operands;
pub mod query;
pub mod scratch;
mod shared_pieces;
pub mod state_list;
mod state_pieces;
pub mod state_set;

pub use clause::Clause;
pub use clauses::{Clauses, ClausesBuilder};
pub use cube::Cube;
pub use cursor::{Cursor, Step};
pub use family::Family;
pub use finding::Finding;
pub use listed_state::{KeptState, StateBuffer};
pub use literal::Literal;
pub use operand::{Operand, Which};
pub use operands::Operands;
pub use query::Query;
pub use scratch::Scratch;
pub use state_list::{StateList, StateListBuilder};
pub use state_set::{Covering, Inside, MOST_COUNTED, Outside, StateSet};
