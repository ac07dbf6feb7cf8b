//! A content with its header part.
ghost use Rattle.std.specs.Prelude.{◌≡◌, ◌++◌, OnOk};
ghost use Rattle.lsp_server.specs.Framed.{framed};

use itoa::Buffer;
use std::alloc::AllocError;

/// Appends a frame to a text: `Content-Length: ` and the number of bytes of the content, the end of that line, an empty line, and the
/// content.
#[tactic(auto, unfolding(crate::specs::Framed::framed))]
pub(crate) fn push_framed(text: &mut Vec<u8>, content: &[u8]) -> Result<(), AllocError>
    ensures { OnOk result (text.new.items ≡ text.old.items ++ framed content.now) }
{
    let mut buffer = Buffer::new();
    text.extend_from_slice(b"Content-Length: ")?;
    text.extend_from_slice(buffer.format(content.len()).as_bytes())?;
    text.extend_from_slice(b"\r\n\r\n")?;
    text.extend_from_slice(content)
}
