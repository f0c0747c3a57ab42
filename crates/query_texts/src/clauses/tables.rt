//! What tables are called.
ghost use Rattle.std.specs.Prelude.{◌≡◌};
ghost use Rattle.std.specs.Option.{option_copied};
ghost use Rattle.query_texts.specs.clauses.Names.{has_id, table_of};

use perm_values::{Chars, List};

/// What a table is called: its identity, its name, and the names of its columns.
#[derive(Drop)]
pub struct TableNames {
    pub id: u64,
    pub name: Chars,
    pub columns: List<Chars>,
}

impl TableNames {
    fn has_id(&self, id: u64) -> bool
        ensures { result ≡ has_id id self.now }
    {
        self.id == id
    }
}

/// The names of the table of an identity; `None` where none has that.
pub fn table_of(tables: &[TableNames], id: u64) -> Option<&TableNames>
    ensures { option_copied result ≡ table_of tables.now id }
{
    for table in tables {
        if table.has_id(id) {
            return Some(table);
        }
    }
    None
}
