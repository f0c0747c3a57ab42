ghost use Rattle.std.specs.Prelude.{◌≡◌, IsSome};
ghost use Rattle.perm_catalog.specs.Changes.{named, changed, renewed};

use crate::entries::TableEntry;
use indexmap::IndexMap;
use perm_values::Chars;

/// Gives the table of this name a new version, under which it stores no provenance.
pub(crate) fn renew(entries: &mut IndexMap<Chars, TableEntry>, name: &Chars, version: u64)
    requires { IsSome (named entries.old.entries name.now) }
    ensures { entries.new.entries ≡ changed (renewed version) name.now entries.old.entries }
{
    if let Some(entry) = entries.get_mut(name) {
        entry.version = version;
        drop(entry.stored.take());
    }
}
