ghost use Rattle.std.specs.Prelude.{◌≡◌, length, count_by};
ghost use Rattle.bag_algebra.specs.TableRows.{rows_in};
ghost use Rattle.perm_catalog.specs.Changes.{rows_without};

use bag_algebra::Tables;

/// Removes the flagged rows of an identity, which may not be held and then has no row, and counts them.
pub(crate) fn drop_held(tables: &mut Tables, id: u64, doomed: &[bool]) -> u64
    requires { length doomed.now ≡ length (rows_in tables.old id) }
    ensures kept { tables.new ≡ rows_without tables.old id doomed.now }
    ensures counted { result ≡ count_by (λ flag. flag) doomed.now }
{
    if tables.rows(id).is_none() {
        return 0;
    }
    tables.drop_rows(id, doomed)
}
