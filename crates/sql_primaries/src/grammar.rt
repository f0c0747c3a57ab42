ghost use Rattle.std.specs.Prelude.{◌≡◌, ◌<◌, ◌≤◌, length, IfOk};
ghost use Rattle.sql_primaries.specs.built.Calls as spelled;
ghost use Rattle.sql_tree.specs.grammar.Cursors as spec;
ghost use Rattle.sql_tree.specs.grammar.Nests.{NestReads};

use perm_values::Boxed;
use sql_tree::{Cursor, ExprTree, Nest, QueryTree, Sort, Unread};

/// The rules of primaries, over what reads inner expressions and queries.
#[derive(Clone, Copy)]
pub struct Primaries<F, G> {
    pub nest: Nest<F, G>,
}

impl<
    F: Fn(&mut Cursor<'_>) -> Result<Boxed<ExprTree>, Unread>,
    G: Fn(&mut Cursor<'_>) -> Result<Boxed<QueryTree>, Unread>,
> Primaries<F, G> {
    /// An expression before this word.
    pub(crate) fn before(
        &self,
        cursor: &mut Cursor<'_>,
        sort: Sort,
    ) -> Result<Boxed<ExprTree>, Unread>
        requires sound { NestReads self.now.nest F.pre G.pre F.post G.post }
        requires below { length cursor.old < self.now.nest.most }
        ensures given { spec.Reads result (spelled.before sort cursor.old) cursor.new }
        ensures fewer { IfOk result (λ _. length cursor.new < length cursor.old) }
    {
        let part = self.nest.expression(cursor)?;
        cursor.value_before(part, sort)
    }

    /// Two expressions with this word between them.
    pub(crate) fn pair(
        &self,
        cursor: &mut Cursor<'_>,
        sort: Sort,
    ) -> Result<(Boxed<ExprTree>, Boxed<ExprTree>), Unread>
        requires sound { NestReads self.now.nest F.pre G.pre F.post G.post }
        requires below { length cursor.old < self.now.nest.most }
        ensures given { spec.Reads result (spelled.pair_of sort cursor.old) cursor.new }
        ensures fewer { IfOk result (λ _. length cursor.new < length cursor.old) }
    {
        let first = self.before(cursor, sort)?;
        let second = self.nest.expression(cursor)?;
        Ok((first, second))
    }
}
