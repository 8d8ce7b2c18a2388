//! Walks over the cubes of a set that say what stays from cube to cube, and questions about a set
//! that are asked along them, so that an inclusion costs what differs between the cubes.
//!
//! Each family says by one associated type how it is walked over or asked, so a faster way for one
//! changes neither the calls nor the other families; a trait for all types that have the lower one
//! would leave no place for such a way. A family without a walk or a question of its own has the
//! plain ones: nothing stays, and `meets` or `covers` answers for each cube anew.
//!
//! A walk and a question are objects that borrow their sets, with what they keep from cube to cube
//! as their own, and not calls of the sets with a scratch: between two calls nothing has to be said
//! of a scratch that other calls may write.
#![tactic(auto)]

pub mod asker;
mod filling;
pub mod meeting;
pub mod plain_inside;
pub mod plain_outside;
pub mod plain_walker;
pub mod sets;
pub mod walker;

pub use asker::Asker;
pub use meeting::meet_along;
pub use plain_inside::InsideAsk;
pub use plain_outside::OutsideAsk;
pub use plain_walker::{InsideWalk, OutsideWalk};
pub use sets::{InsideAsked, InsideWalked, OutsideAsked, OutsideWalked};
pub use walker::{WalkStop, Walker};
