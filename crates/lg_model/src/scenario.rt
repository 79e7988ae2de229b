//! The parts of a scenario (docs/FORMATS.md, Scenario text). Hosts, switches and flows stand in lists, and other
//! parts name them by their positions there.

use crate::lists::{Delays, Letters, Path};
use flow_key::FlowKey;

/// How the places of a flow are found (docs/DEFINITIONS.md, Places).
#[derive(Clone, Copy, Debug, PartialEq, Eq)]
pub enum Hash {
    /// By the two ports.
    Ports,
    /// By a hash of the whole key that begins with this seed.
    Seed(u64),
}

/// How a switch chooses the columns that packets carry.
#[derive(Clone, Copy, Debug, PartialEq, Eq)]
pub enum Pick {
    /// By turns.
    Turns,
    /// By a random stream with this seed.
    Chance(u64),
}

/// What a link does to one upload or to its reply.
#[derive(Clone, Copy, Debug, PartialEq, Eq)]
pub enum Letter {
    /// Both arrive.
    Deliver,
    /// The upload is lost.
    Lose,
    /// The reply is lost.
    LoseReply,
    /// The upload arrives twice.
    Twice,
    /// The upload arrives late.
    Hold,
}

/// What becomes of the packets of a step.
#[derive(Clone, Copy, Debug, PartialEq, Eq)]
pub enum Fate {
    /// Each arrives once.
    Straight,
    /// Each is lost after that many hops of its path.
    Lost(u8),
    /// Each arrives twice in succession.
    Twice,
    /// Each is held until the next release.
    Late,
}

/// A host and the letters of its link.
#[derive(Debug, Drop)]
pub struct HostLine {
    /// The host's name.
    pub name: u16,
    /// What its link does to its uploads, one after the other.
    pub letters: Letters,
}

/// A flow: its key, where it ends and which way it goes.
#[derive(Debug, Drop)]
pub struct Flow {
    /// The flow's name.
    pub name: u16,
    /// The addresses, the protocol and the ports.
    pub key: FlowKey,
    /// The position of its host.
    pub host_at: u16,
    /// The positions of the switches on its way, in order.
    pub path: Path,
}

/// What happens, one thing after the other.
#[derive(Debug, Drop)]
pub enum Step {
    /// Packets of a flow, all alike.
    Packet {
        /// The position of the flow.
        flow_at: u16,
        /// The size of each, in bytes.
        size: u16,
        /// How long each waits at each hop, in microseconds.
        delays: Delays,
        /// How many they are.
        burst: u32,
        /// What becomes of each.
        fate: Fate,
    },
    /// A switch ends an epoch.
    End {
        /// The position of the switch.
        switch_at: u16,
    },
    /// Every switch ends an epoch.
    EndAll,
    /// The packets that are held arrive.
    Release,
}

/// A question: what a switch saw of a flow in an epoch.
#[derive(Debug, Drop)]
pub struct Ask {
    /// The position of the flow.
    pub flow_at: u16,
    /// The switch's name.
    pub switch: u16,
    /// The epoch, counted from 0.
    pub epoch: u32,
}
