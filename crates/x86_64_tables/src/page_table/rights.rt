//! What page table entries allow.
ghost use Rattle.std.specs.Prelude.{◌≡◌, Some};
ghost use Rattle.x86_64_model.specs.Mappings.{granted};
ghost use Rattle.x86_64_tables.specs.Rights.{both, either};

use super::{PageTableEntry, PageTableFlags, has_flag};
use std::fmt::{Display, Formatter, Result as FmtResult, Write};
use std::marker::Model;

/// What the entries of page tables on the way to a page allow together, beside reads by privileged code.
///
/// Intel SDM vol. 3A, "Determination of Access Rights"; AMD APM vol. 2, "Page-Protection Checks".
///
/// As text these are the letters `rwxu`: whether pages may be read, written, executed, and accessed by user code. A letter is
/// replaced by `-` if its right is missing.
#[derive(Clone, Copy, Debug, PartialEq, Eq)]
pub struct Rights {
    /// Whether all entries have `WRITABLE`.
    pub write: bool,
    /// Whether all entries have `USER_ACCESSIBLE`.
    pub user: bool,
    /// Whether no entry has `NO_EXECUTE`.
    pub execute: bool,
}

impl Model for Rights {
    ghost use Rattle.std.specs.Prelude.{refl};
    ghost use Rattle.x86_64_model.specs.Mappings.{Rights as Allowed};

    ghost Value = { Allowed };

    ghost view = { λ r. record { write = r.write; user = r.user; execute = r.execute } };

    ghost inverse = { λ r. record { write = r.write; user = r.user; execute = r.execute } };

    ghost inverse_ok = { λ r _. refl };
}

impl Rights {
    /// All rights: what is allowed before any entry restricts it.
    pub const ALL: Rights = Rights {
        write: true,
        user: true,
        execute: true,
    };

    /// No rights: no writes, no access by user code, and no execution.
    pub const NONE: Rights = Rights {
        write: false,
        user: false,
        execute: false,
    };

    /// Returns the rights that are left below an entry: those of `self` that the entry allows too.
    pub fn below(self, entry: &PageTableEntry) -> Rights
        ensures { result ≡ granted self entry.now }
    {
        Rights {
            write: self.write & has_flag(entry, PageTableFlags::WRITABLE),
            user: self.user & has_flag(entry, PageTableFlags::USER_ACCESSIBLE),
            execute: self.execute & !has_flag(entry, PageTableFlags::NO_EXECUTE),
        }
    }

    /// Returns the rights that are both in `self` and in `others`.
    pub fn and(self, others: Rights) -> Rights
        ensures { result ≡ both self others }
    {
        Rights {
            write: self.write & others.write,
            user: self.user & others.user,
            execute: self.execute & others.execute,
        }
    }

    /// Returns the rights that are in `self`, in `others`, or in both.
    pub fn or(self, others: Rights) -> Rights
        ensures { result ≡ either self others }
    {
        Rights {
            write: self.write | others.write,
            user: self.user | others.user,
            execute: self.execute | others.execute,
        }
    }
}

impl Display for Rights {
    ghost use Rattle.x86_64_tables.specs.Rights.{rights_text};

    ghost output = { λ rights. Some (rights_text rights) };

    #[tactic(auto, unfolding(crate::specs::Rights::rights_text))]
    fn fmt<W: Write>(&self, f: &mut Formatter<W>) -> FmtResult {
        f.write_str("r")?;
        f.write_str(if self.write { "w" } else { "-" })?;
        f.write_str(if self.execute { "x" } else { "-" })?;
        f.write_str(if self.user { "u" } else { "-" })
    }
}
