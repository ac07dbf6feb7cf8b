//! What a client asks to have reported.
ghost use Rattle.std.specs.Prelude.{◌≡◌, IfOk};
ghost use Rattle.lsp_answers.specs.Settings.{asked_by};

use engine_checks::Asked;
use rule_remarks::Accounts;
use std::alloc::{AllocError, Global};
use std::marker::Model;
use text_bytes::{Bytes, Profile};
use text_tables::Texts;

/// What a client asks to have reported for its documents.
#[derive(Drop)]
pub struct Settings {
    /// The profile by which rules are read.
    pub profile: Profile,
    /// Whether messages about style are reported.
    pub style: bool,
    /// Whether lints are reported.
    pub lint: bool,
    /// The codes of what is not reported; `comments` among them says that comments in the documents count, too.
    pub ignored: Vec<Bytes>,
}

impl Model for Settings {
    ghost use Rattle.lsp_answers.specs.Settings as settings;

    ghost Value = { settings.Settings };

    ghost view = { λ s. record { profile = s.profile; style = s.style; lint = s.lint; ignored = s.ignored.items } };
}

impl Settings {
    ghost use Rattle.lsp_answers.specs.Settings.{strict};

    /// Those of `verify --strict`.
    pub fn strict(alloc: Global) -> Settings
        ensures { result ≡ strict }
    {
        Settings {
            profile: Profile::Udev,
            style: true,
            lint: true,
            ignored: Vec::new(alloc),
        }
    }

    /// What these settings ask of checks. No user and no group is known by a list, and each code counts once.
    pub fn asked(&self, alloc: Global) -> Result<Asked<'_>, AllocError>
        ensures { IfOk result (λ asked. asked ≡ asked_by self.now) }
    {
        let mut ignored = Texts::new(alloc);
        for code in &self.ignored {
            ignored.add(code.as_slice())?;
        }
        Ok(Asked {
            profile: self.profile,
            accounts: Accounts {
                users: None,
                groups: None,
            },
            style: self.style,
            lint: self.lint,
            ignored,
        })
    }
}
