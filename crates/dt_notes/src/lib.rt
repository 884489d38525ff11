//! What a world has beside its stations: its setup, what happens to it and who receives its lines, and what
//! it notes, which are the copies of packets on its links and what becomes of each octet.
#![tactic(auto)]

mod copies;
mod effects;
mod event_contexts;
mod events;
mod lines;
mod marked_frames;
mod moments;
mod notes;
mod runs;
mod setups;

pub use copies::{Copies, LinkCopy};
pub use effects::{Change, Effect, SenderStep, effect_of};
pub use event_contexts::{Brought, EventContext};
pub use events::Event;
pub use lines::Lines;
pub use marked_frames::{Mark, MarkedFrame};
pub use moments::Moment;
pub use notes::{Notes, change, stays_below};
pub use setups::Setup;
