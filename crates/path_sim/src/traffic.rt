//! What has happened in the network so far.
use crate::inbox::Held;
use crate::post::Post;
use epoch_freeze::Twins;

/// The twins of the switches, where the columns go, and what is held, in the order in which it was sent.
#[derive(Drop)]
pub struct Traffic<O: Post + Drop> {
    pub twins: Vec<Twins>,
    pub post: O,
    pub held: Vec<Held<O::Cargo>>,
}
