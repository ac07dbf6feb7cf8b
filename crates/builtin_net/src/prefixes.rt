//! How the names of each kind of interface begin.
ghost use Rattle.std.specs.Prelude.{◌≡◌};
ghost use Rattle.builtin_net.specs.Prefixes.{is_infiniband, prefix_text};

/// A kind of interface, by which its names begin.
#[derive(Clone, Copy)]
pub(crate) enum Prefix {
    /// Ethernet, `en`.
    Ethernet,
    /// Wireless Ethernet, `wl`.
    Wireless,
    /// A modem, `ww`.
    Modem,
    /// InfiniBand, `ib`.
    InfiniBand,
    /// A serial line (SLIP), `sl`.
    SerialLine,
}

impl Prefix {
    /// The two letters that names begin with.
    pub(crate) fn text(self) -> &'static [u8]
        ensures { result.now ≡ prefix_text self }
    {
        match self {
            Prefix::Ethernet => b"en",
            Prefix::Wireless => b"wl",
            Prefix::Modem => b"ww",
            Prefix::InfiniBand => b"ib",
            Prefix::SerialLine => b"sl",
        }
    }

    /// Whether it is InfiniBand.
    pub(crate) fn is_infiniband(self) -> bool
        ensures { result ≡ is_infiniband self }
    {
        matches!(self, Prefix::InfiniBand)
    }
}
