//! Which commands a line of a block can have.
ghost use Rattle.std.specs.Prelude.{◌≡◌};
ghost use Rattle.std.specs.List.{list_all};
ghost use Rattle.eval_courses.specs.Questions.{can_be_asked, fits_in_line};

/// Whether a byte may be within a line of a block.
fn fits_in_line(byte: u8) -> bool
    ensures { result ≡ fits_in_line byte }
{
    !(byte == b'\n' || byte == b'\0')
}

/// Whether all bytes of a text may.
fn all_fit_in_line(text: &[u8]) -> bool
    ensures { result ≡ list_all fits_in_line text.now }
{
    text.iter().all(|byte| fits_in_line(*byte))
}

/// Whether a line of a block can have a command: it has a byte, and neither a newline nor a NUL among its bytes.
pub fn can_be_asked(command: &[u8]) -> bool
    ensures { result ≡ can_be_asked command.now }
{
    !command.is_empty() && all_fit_in_line(command)
}
