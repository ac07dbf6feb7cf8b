//! The builtins that run once for an event.
ghost use Rattle.std.specs.Prelude.{◌≡◌};
ghost use Rattle.eval_state.specs.Ran.{none_ran};

/// Which of udev's builtins that run once for an event have run, and whether each succeeded.
#[derive(Clone, Copy)]
pub struct Ran {
    /// `usb_id`.
    pub usb_id: Option<bool>,
    /// `path_id`.
    pub path_id: Option<bool>,
}

impl Ran {
    /// None has run.
    pub fn none() -> Ran
        ensures { result ≡ none_ran }
    {
        Ran {
            usb_id: None,
            path_id: None,
        }
    }
}
