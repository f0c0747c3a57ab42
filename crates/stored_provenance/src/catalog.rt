//! What keeps a catalog sound, and what a table that stores provenance stands for.
//! Laws of sound catalogs: each is the contract of a function that does nothing.
ghost use Rattle.std.specs.Prelude.{◌≡◌, ℕ, Bool, true, List, Option, Some, None, IfSome};
ghost use Rattle.bag_algebra.specs.Bags.{Bag};
ghost use Rattle.bag_algebra.specs.Fits.{bag_fits};
ghost use Rattle.perm_catalog.specs.Changes.{table_named, is_free, nothing_held, with_table, with_more_rows, with_fewer_rows, with_view, without_table, without_view};
ghost use Rattle.perm_catalog.specs.Columns.{column_kinds};
ghost use Rattle.perm_catalog.specs.Contents.{Contents};
ghost use Rattle.perm_catalog.specs.Lookups.{first_user};
ghost use Rattle.perm_catalog.specs.Sound.{IsSound, IsSoundView, IsNewTable};
ghost use Rattle.perm_catalog.specs.Stored.{IsSoundStored};
ghost use Rattle.perm_catalog.specs.declared.column.Column.{Column};
ghost use Rattle.perm_catalog.specs.declared.entries.StoredQuery.{StoredQuery};
ghost use Rattle.perm_catalog.specs.declared.entries.TableEntry.{TableEntry as Table};
ghost use Rattle.perm_catalog.specs.declared.entries.ViewEntry.{ViewEntry as View};

/// An empty catalog is sound, and `create`, `insert_rows`, `delete_rows`, `add_view`, `drop_table` and
/// `drop_view` keep a sound catalog sound: their contracts say that they make of it what stands here.
pub fn catalogs_stay_sound()
    ensures new { (next : ℕ) → IsSound (nothing_held next) }
    ensures create { (c : Contents) (name : List ℕ) (columns : List Column) (rows : Bag)
        (stored : Option StoredQuery) → IsSound c → is_free c name ≡ true → IsNewTable columns rows
        → IfSome stored (IsSoundStored c columns rows)
        → IsSound (with_table c name columns rows stored) }
    ensures insert_rows { (c : Contents) (name : List ℕ) (table : Table) (rows : Bag)
        → IsSound c → table_named c name ≡ Some table → bag_fits rows (column_kinds table.columns) ≡ true
        → IsSound (with_more_rows c name table.id rows) }
    ensures delete_rows { (c : Contents) (name : List ℕ) (table : Table) (doomed : List Bool) → IsSound c
        → table_named c name ≡ Some table → IsSound (with_fewer_rows c name table.id doomed) }
    ensures add_view { (c : Contents) (name : List ℕ) (view : View)
        → IsSound c → is_free c name ≡ true → IsSoundView c view → IsSound (with_view c name view) }
    ensures drop_table { (c : Contents) (name : List ℕ) (table : Table)
        → IsSound c → table_named c name ≡ Some table → first_user c name ≡ None
        → IsSound (without_table c name table.id) }
    ensures drop_view { (c : Contents) (name : List ℕ) → IsSound c → IsSound (without_view c name) }
{}
