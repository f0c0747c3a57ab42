ghost use Rattle.std.specs.Prelude.{◌≡◌, ◌∷◌, [], OnOk};
ghost use Rattle.name_meaning.specs.Meanings.{both_inside, nothing_inside};
ghost use Rattle.name_inside.specs.Held.{inside_in, query_alone, names_alone};

use perm_catalog::ViewEntry;
use perm_values::{Chars, Copyable, List, NoMemory};
use std::alloc::Global;

/// What stands inside the parts that were gone through: the offset of each query with its number of columns, in the order
/// of the text, and the names of tables and views.
#[derive(Drop)]
pub struct Gathered {
    pub queries: List<(usize, usize)>,
    pub names: List<Chars>,
}

impl Gathered {
    /// Nothing yet. It takes no memory.
    pub fn nothing(alloc: Global) -> Gathered
        ensures { inside_in result ≡ nothing_inside }
    {
        Gathered {
            queries: List::new(alloc),
            names: List::new(alloc),
        }
    }

    /// Adds a query at this offset with its number of columns.
    pub(crate) fn add_query(&mut self, at: usize, columns: usize) -> Result<(), NoMemory>
        ensures { OnOk result (inside_in self.new
            ≡ both_inside (inside_in self.old) (query_alone at columns)) }
    {
        self.queries.push((at, columns))?;
        Ok(())
    }

    /// Adds the name of a table.
    pub(crate) fn add_table(&mut self, alloc: Global, name: &Chars) -> Result<(), NoMemory>
        ensures { OnOk result (inside_in self.new
            ≡ both_inside (inside_in self.old) (names_alone (name.now ∷ []))) }
    {
        self.names.push(name.copy(alloc)?)?;
        Ok(())
    }

    /// Adds the name of a view, and the names that it uses.
    pub(crate) fn add_view(
        &mut self,
        alloc: Global,
        name: &Chars,
        view: &ViewEntry,
    ) -> Result<(), NoMemory>
        ensures { OnOk result (inside_in self.new
            ≡ both_inside (inside_in self.old) (names_alone (name.now ∷ view.now.names_used))) }
    {
        self.names.push(name.copy(alloc)?)?;
        self.names.append(view.names_used.copy(alloc)?)?;
        Ok(())
    }
}
