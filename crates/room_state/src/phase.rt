//! Where a room is between two events.

ghost use Rattle.std.specs.Prelude.{◌≡◌};
ghost use Rattle.room_state.specs.Held.{is_stopped};

/// Whether the wire in use was asked what it does before the next event; or that no event comes any more.
#[derive(Clone, Copy, Drop)]
pub enum Phase {
    /// It wasn't asked yet.
    Unasked,
    /// It was, and gave nothing, or what is passed over. It isn't asked again before the same event.
    Asked,
    /// Memory lacked.
    Stopped,
}

impl Phase {
    /// Whether no event comes any more.
    pub(crate) fn is_stopped(self) -> bool
        ensures { result ≡ is_stopped self }
    {
        match self {
            Phase::Stopped => true,
            Phase::Unasked | Phase::Asked => false,
        }
    }
}
