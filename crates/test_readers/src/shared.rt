//! The reader that threads share.

mod bell;
mod calls;
mod closing;
mod limits;
mod order;
mod pastes;
mod refused;
mod waits;
mod waking;
