//! Looks at names. That they are UTF-8 is known where code holds them, and nowhere in definitions.
ghost use Rattle.std.specs.List.{AllByRecursion};
ghost use Rattle.std.specs.Str.{IsUtf8};
ghost use Rattle.sql_printer.specs.forms.Printable.{AreCharacters};

use perm_values::Chars;
use query_texts::TableNames;

/// Looks at names. It takes no memory.
pub fn see_names(names: &[Chars])
    ensures { AllByRecursion IsUtf8 names.now }
{
    for name in names {
        let _bytes = name.bytes();
    }
}

fn see_table(table: &TableNames)
    ensures { AreCharacters table.now }
{
    let _bytes = table.name.bytes();
    see_names(table.columns.as_slice());
}

/// Looks at the names of tables and of their columns. It takes no memory.
pub fn see_tables(tables: &[TableNames])
    ensures { AllByRecursion AreCharacters tables.now }
{
    for table in tables {
        see_table(table);
    }
}
