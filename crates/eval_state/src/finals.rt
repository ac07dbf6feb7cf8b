//! The keys that no longer change.
ghost use Rattle.std.specs.Prelude.{◌≡◌};
ghost use Rattle.eval_state.specs.Finals.{is_final, made_final, no_finals};

use std::marker::Model;

/// A key that `:=` makes final, as udev(7) has it: no later rule of any file changes it.
#[derive(Clone, Copy, PartialEq, Eq)]
pub enum FinalKey {
    /// OWNER.
    Owner,
    /// GROUP.
    Group,
    /// MODE.
    Mode,
    /// NAME.
    Name,
    /// SYMLINK.
    Symlink,
    /// RUN, of both types.
    Run,
    /// `link_priority` of OPTIONS.
    Priority,
    /// `watch` and `nowatch` of OPTIONS, which are one key.
    Watch,
}

/// Which keys no longer change.
#[derive(Clone, Copy, PartialEq, Eq)]
pub struct Finals {
    owner: bool,
    group: bool,
    mode: bool,
    name: bool,
    symlink: bool,
    run: bool,
    priority: bool,
    watch: bool,
}

impl Model for Finals {
    ghost use Rattle.std.specs.Coded.{coded_bool};
    ghost use Rattle.eval_state.specs.Finals as keys;
    ghost use Rattle.eval_state.specs.KeyTables.{by_key_code, kept_for};
    ghost use Rattle.eval_state.specs.declared.finals.FinalKey.TheVariants as key;

    ghost Value = { keys.Finals };

    ghost coded = { by_key_code coded_bool };

    ghost view = { λ f. kept_for (record {
      owner = f.owner;
      group = f.group;
      mode = f.mode;
      name = f.name;
      symlink = f.symlink;
      run = f.run;
      priority = f.priority;
      watch = f.watch;
    }) };

    ghost inverse = { λ f. record {
      owner = f key.Owner;
      group = f key.Group;
      mode = f key.Mode;
      name = f key.Name;
      symlink = f key.Symlink;
      run = f key.Run;
      priority = f key.Priority;
      watch = f key.Watch;
    } };
}

impl Finals {
    /// All keys may change.
    pub fn none() -> Finals
        ensures { result ≡ no_finals }
    {
        Finals {
            owner: false,
            group: false,
            mode: false,
            name: false,
            symlink: false,
            run: false,
            priority: false,
            watch: false,
        }
    }

    /// Whether a key no longer changes.
    pub fn contains(self, key: FinalKey) -> bool
        ensures { result ≡ is_final self key }
    {
        match key {
            FinalKey::Owner => self.owner,
            FinalKey::Group => self.group,
            FinalKey::Mode => self.mode,
            FinalKey::Name => self.name,
            FinalKey::Symlink => self.symlink,
            FinalKey::Run => self.run,
            FinalKey::Priority => self.priority,
            FinalKey::Watch => self.watch,
        }
    }

    /// Makes a key final.
    pub fn add(&mut self, key: FinalKey)
        ensures { self.new ≡ made_final self.old key }
    {
        match key {
            FinalKey::Owner => self.owner = true,
            FinalKey::Group => self.group = true,
            FinalKey::Mode => self.mode = true,
            FinalKey::Name => self.name = true,
            FinalKey::Symlink => self.symlink = true,
            FinalKey::Run => self.run = true,
            FinalKey::Priority => self.priority = true,
            FinalKey::Watch => self.watch = true,
        }
    }
}
