//! How far an upload is.
ghost use Rattle.std.specs.Prelude.{◌≡◌};
ghost use Rattle.uploader_core.specs.States.{is_idle, is_outstanding, is_acknowledged};

/// How far an upload is.
#[derive(Clone, Copy, Debug, PartialEq, Eq)]
pub enum SeqState {
    /// To be sent.
    Idle,
    /// Sent, and no reply to it was taken since.
    Outstanding,
    /// The analyser has all its columns.
    Acknowledged,
    /// The analyser refuses it for good.
    Refused,
}

impl SeqState {
    pub(crate) fn is_idle(self) -> bool
        ensures { result ≡ is_idle self }
    {
        matches!(self, SeqState::Idle)
    }

    pub(crate) fn is_outstanding(self) -> bool
        ensures { result ≡ is_outstanding self }
    {
        matches!(self, SeqState::Outstanding)
    }

    pub(crate) fn is_acknowledged(self) -> bool
        ensures { result ≡ is_acknowledged self }
    {
        matches!(self, SeqState::Acknowledged)
    }
}
