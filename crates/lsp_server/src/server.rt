//! The state of a server.
ghost use Rattle.std.specs.Prelude.{◌≡◌};
ghost use Rattle.lsp_server.specs.Servers.{first};

use lsp_answers::Settings;
use lsp_messages::{Documents, Encoding};
use std::alloc::Global;
use std::marker::Model;

/// How far a client and the server have come.
#[derive(Clone, Copy, PartialEq, Eq)]
pub enum Phase {
    /// The client has not said `initialize` yet.
    Fresh,
    /// The client has said it.
    Running,
    /// The client has said `shutdown`.
    Down,
}

/// A language server.
#[derive(Drop)]
pub struct Server {
    pub(crate) phase: Phase,
    pub(crate) encoding: Encoding,
    pub(crate) settings: Settings,
    pub(crate) documents: Documents,
}

impl Model for Server {
    ghost use Rattle.lsp_server.specs.Servers as servers;

    ghost Value = { servers.Server };

    ghost view = { λ s. record { phase = s.phase; encoding = s.encoding; settings = s.settings; documents = s.documents } };
}

impl Server {
    /// A server that no client has spoken to. Until a client says otherwise, characters are counted in units of UTF-16, and
    /// what `verify --strict` reports is reported.
    pub fn new(alloc: Global) -> Server
        ensures { result ≡ first }
    {
        Server {
            phase: Phase::Fresh,
            encoding: Encoding::Utf16,
            settings: Settings::strict(alloc),
            documents: Documents::new(alloc),
        }
    }
}
