//! The way to a peer.
ghost use Rattle.std.specs.Prelude.{◌<◌, ◌^◌};

/// What is known of the way to a peer and of the parameters.
#[derive(Clone, Copy)]
pub struct Route {
    /// The least delay that was measured: there, and back where that is least.
    pub base: u64,
    /// The longest life that a datagram may use: mpl, less what the watch itself takes.
    pub budget: u64,
    /// The time after which a segment goes again.
    pub resend: u64,
    ghost base_bounded: { base < 2 ^ 50 },
    ghost resend_bounded: { resend < 2 ^ 50 },
}
