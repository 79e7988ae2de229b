//! What a worker passes before each upload that it sends.

/// What sees each frame before it goes on its way. A worker calls it once for each upload that it sends, with no lock
/// held, whatever becomes of the frame then. It may wait, as a test does that lets workers meet.
pub trait Gate: Sync {
    /// Called with a host's name, an upload's number and the bytes of the upload's frame (docs/FORMATS.md, Frames).
    fn pass(&self, host: u16, seq: u32, frame: &[u8]);
}

/// A gate whose `pass` does nothing.
pub struct OpenGate;

impl Gate for OpenGate {
    fn pass(&self, _host: u16, _seq: u32, _frame: &[u8]) {}
}
