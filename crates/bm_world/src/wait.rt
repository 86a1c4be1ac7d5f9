//! Since when a unit waits.

ghost use Rattle.std.specs.Prelude.{◌≡◌};

/// When a unit began to wait for a grace period: the stamps of both domains that were taken then. This project's own.
#[derive(Clone, Copy)]
pub struct Wait {
    /// The stamp of the plain domain.
    pub plain: u32,
    /// The stamp of the tracing domain.
    pub tracing: u32,
}
