//! Loading a protocol: all bytes of its file, and the protocol that they spell, or why they are refused and where.
#![tactic(auto)]

pub mod codes;
pub mod loading;
mod reading;

pub use crate::codes::ProtocolCode;
pub use crate::loading::{Unloaded, Unread, load_protocol, load_text, protocol_in};
