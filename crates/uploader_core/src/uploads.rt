//! What an uploader needs of its uploads, however they are kept.
ghost use Rattle.std.specs.Prelude.{◌≡◌, ◌<◌, List, Some, IfOk, length, slice_get};
ghost use Rattle.std.specs.List.{AllByRecursion};
ghost use Rattle.sketchlet_wire.specs.Uploads.{UploadData, IsFull};
ghost use Rattle.upload_frame.specs.Frames.{frame_of};

use lg_base::Memory;
use sketchlet_wire::Upload;
use std::alloc::Global;
use upload_frame::write_upload;

/// The uploads of a host, kept in some way. Contracts see the list of them.
pub trait Uploads: Drop {
    /// The uploads, in order.
    ghost listed: { Self → List UploadData };

    /// How many there are. Each has numbers and columns that a frame can hold.
    fn count(&self) -> usize
        ensures count { result ≡ length (listed self.now) }
        ensures full { AllByRecursion IsFull (listed self.now) };

    /// The frame of the upload at that position (docs/FORMATS.md, Frames). `Memory` where there is none for it.
    fn frame(&self, alloc: Global, at: usize) -> Result<Vec<u8>, Memory>
        requires { at < length (listed self.now) }
        ensures { IfOk result (λ bytes.
            (u : UploadData) → slice_get (listed self.now) at ≡ Some u → bytes.items ≡ frame_of u) };
}

impl Uploads for Vec<Upload> {
    ghost listed = { λ v. v.items };

    fn count(&self) -> usize {
        uploads_are_full(self);
        self.len()
    }

    fn frame(&self, alloc: Global, at: usize) -> Result<Vec<u8>, Memory> {
        write_upload(alloc, &self[at])
    }
}

// Each upload has numbers and columns that a frame can hold. Nothing is done here; the clause is what counts.
fn uploads_are_full(uploads: &[Upload])
    ensures { AllByRecursion IsFull uploads.now }
{
    for upload in uploads {
        upload.columns();
    }
}
