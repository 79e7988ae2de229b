//! The network of a scenario: packets go their way, switches count them and hand out columns, and columns come to hosts
//! (docs/ARCHITECTURE.md, The way of a packet).
//!
//! | Item | What it is |
//! |---|---|
//! | [`run_net`] | runs the network with the pickers that it is given |
//! | [`run_own`] | runs it with the pickers that the scenario names |
//! | [`Arrivals`] | what these leave: the columns of each host, the carry list, the twins of each switch |
//! | [`run_pooled`], [`PooledArrivals`] | the same with each column kept once, and no carry list |
//! | [`Carry`] | a packet that carries a column |
//!
//! The network is written once, over where the columns go (`Post`): into a box of its own for each host (`Boxes`), or into
//! one pool (`Pool`). What a function does is told by one record, of how far the run is.
#![tactic(auto)]

mod arrivals;
mod boxes;
mod carry;
mod counting;
mod inbox;
mod mail;
mod meeting;
mod own;
mod packed;
mod placing;
mod pool;
mod pooled;
mod post;
mod running;
mod sending;
mod slot;
mod stepping;
#[cfg(test)]
mod tests;
mod traffic;

pub use arrivals::{Arrivals, run_net};
pub use carry::Carry;
pub use own::run_own;
pub use pooled::{PooledArrivals, run_pooled};
