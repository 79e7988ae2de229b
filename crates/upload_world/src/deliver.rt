//! Deliveries that are due: each upload was read from its frame, and waits for the turn at the book.
ghost use Rattle.std.specs.Prelude.{◌≡◌, ◌==◌, OnOk, [], ◌∷◌, ◌++◌, length};
ghost use Rattle.link_deliveries.specs.Deliveries.{delivery};
ghost use Rattle.upload_world.specs.Pumping.{IsFrame, IsNothing, MakesDue, dues};

use lg_base::Memory;
use sketchlet_wire::Upload;
use std::alloc::Global;
use upload_frame::read_upload;

/// An upload that was sent: its number, and its frame as the gate was handed it.
#[derive(Drop)]
pub(crate) struct Sent {
    pub(crate) seq: u32,
    pub(crate) frame: Vec<u8>,
}

/// An upload that comes, by its number, and whether its reply is heard.
#[derive(Clone, Copy, Drop)]
pub(crate) struct Coming {
    pub(crate) seq: u32,
    pub(crate) heard: bool,
}

/// What is due: the uploads that came, in order, and beside them which of the host's they are.
#[derive(Drop)]
pub(crate) struct Due {
    pub(crate) uploads: Vec<Upload>,
    pub(crate) order: Vec<Coming>,
}

impl Due {
    /// Nothing.
    pub(crate) fn new(alloc: Global) -> Due
        ensures { IsNothing result }
    {
        Due {
            uploads: Vec::new(alloc),
            order: Vec::new(alloc),
        }
    }

    /// Whether nothing is due.
    pub(crate) fn is_empty(&self) -> bool
        ensures { result ≡ (length self.now.order.items == 0) }
    {
        self.order.len() == 0
    }

    /// Takes all of it out. The room stays.
    pub(crate) fn clear(&mut self)
        ensures { IsNothing self.new }
    {
        self.uploads.clear();
        self.order.clear();
    }
}

/// Reads an upload that was sent from its frame. It is due from then on, after all that was.
pub(crate) fn deliver(alloc: Global, due: &mut Due, sent: &Sent, heard: bool) -> Result<(), Memory>
    requires frame { IsFrame sent.now }
    ensures dues { OnOk result (dues due.new ≡ dues due.old ++ delivery sent.now.seq heard ∷ []) }
    ensures due { OnOk result (MakesDue (sent.now ∷ []) due.old due.new) }
{
    let upload = read_upload(alloc, &sent.frame)?;
    due.uploads.push(upload)?;
    due.order.push(Coming {
        seq: sent.seq,
        heard,
    })?;
    Ok(())
}
