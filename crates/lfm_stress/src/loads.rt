//! The loads: what one thread does in its turns. Each file has one.
pub mod broadcast;
pub mod buffer;
pub mod limits;
pub mod lock;
pub mod mixed;
pub mod ping_pong;
