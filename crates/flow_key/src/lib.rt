//! Keys of flows: the five numbers of a flow, their 13 bytes and their one text. Nothing here takes memory.
//!
//! | Type | What it is |
//! |---|---|
//! | [`FlowKey`] | addresses, protocol and ports of a flow |
//!
//! The module [`words`] reads what a key's text consists of: words between single bytes, numbers and addresses.
#![tactic(auto)]

mod key;
mod printing;
#[cfg(test)]
mod tests;
pub mod words;

pub use key::FlowKey;
