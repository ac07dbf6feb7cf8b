//! Users or groups as a file lists them, which are found by their names.
//!
//! Rules may name as many as there are, so they are looked up in a table.
ghost use Rattle.std.specs.Prelude.{◌≡◌, IfOk};
ghost use Rattle.rule_remarks.specs.Accounts.{first_number};

use crate::accounts::Account;
use indexmap::IndexMap;
use std::alloc::{AllocError, Global};
use std::marker::Model;

/// Users or groups in their order.
#[derive(Drop)]
pub struct AccountList {
    listed: Vec<Account>,
    /// The number of the first account of each name.
    numbers: IndexMap<Vec<u8>, u32>,
}

impl Model for AccountList {
    ghost use Rattle.std.specs.Prelude.{◌≡◌, List, map};
    ghost use Rattle.rule_remarks.specs.AccountTables.{number_table};
    ghost use Rattle.rule_remarks.specs.declared.accounts.Account.{Account};

    ghost Value = { List Account };

    ghost view = { λ l. l.listed.items };

    ghost invariant = { λ l. map (λ e. (e.0.items, e.1)) l.numbers.entries ≡ number_table l.listed.items };
}

impl AccountList {
    /// Users or groups, of which those with one name may be several: the first counts.
    pub fn of(alloc: Global, listed: Vec<Account>) -> Result<AccountList, AllocError>
        ensures { IfOk result (λ list. list ≡ listed.items) }
    {
        let mut numbers = IndexMap::new(alloc);
        for account in listed.iter().rev() {
            let name = Vec::from_slice(alloc, account.name.as_slice())?;
            numbers.insert(name, account.number)?;
        }
        Ok(AccountList { listed, numbers })
    }

    /// The number of the first account of a name.
    pub(crate) fn number_of(&self, name: &[u8]) -> Option<u32>
        ensures { result ≡ first_number self.now name.now }
    {
        self.numbers.get(name).copied()
    }
}
