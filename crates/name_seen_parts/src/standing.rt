//! Where expressions and queries stand.
ghost use Rattle.std.specs.Prelude.{◌≡◌};
ghost use Rattle.sql_tree.specs.Regular.{is_lateral};
ghost use Rattle.name_meaning.specs.Queries.{may_not_ask};
ghost use Rattle.name_meaning.specs.Sublinks.{around_of as below};
ghost use Rattle.name_seen_parts.specs.Named.{scopes_of};
ghost use Rattle.name_seen_parts.specs.Standing.{around_beside, around_in_from, around_of, standing_in, surroundings};

use crate::scopes::Scopes;
use perm_catalog::Catalog;
use sql_tree::JoinWord;
use std::alloc::Global;

/// How an expression stands: whether an aggregate and a sublink may stand here, and whether it stands in an argument of an
/// aggregate.
#[derive(Clone, Copy, PartialEq, Eq)]
pub struct Standing {
    pub aggregates: bool,
    pub sublinks: bool,
    pub argument: bool,
}

/// Where an expression stands: what it is seen with, the scopes around it, and how it stands.
#[derive(Clone, Copy)]
pub struct Here<'a> {
    pub alloc: Global,
    pub catalog: &'a Catalog,
    pub scopes: &'a Scopes<'a>,
    pub standing: Standing,
}

impl<'a> Here<'a> {
    /// Where an expression stands beside this one that sees these scopes, and stands so.
    pub fn seeing<'b>(&'b self, scopes: &'b Scopes<'b>, standing: Standing) -> Here<'b>
        ensures place { surroundings result ≡ standing_in (scopes_of scopes.now) standing }
        ensures catalog { result.catalog.now ≡ self.now.catalog.now }
    {
        Here {
            alloc: self.alloc,
            catalog: &*self.catalog,
            scopes,
            standing,
        }
    }

    /// Where the query of a sublink stands.
    pub fn below(&self) -> Around<'a>
        ensures place { around_of result ≡ below (surroundings self.now) }
        ensures catalog { result.catalog.now ≡ self.now.catalog.now }
    {
        Around {
            alloc: self.alloc,
            catalog: self.catalog,
            outer: self.scopes,
            may_ask: false,
        }
    }
}

/// Whether the subquery of a join sees the row on the left (ISO/IEC 9075-2, 'lateral derived table').
pub fn is_lateral(word: JoinWord) -> bool
    ensures { result ≡ is_lateral word }
{
    match word {
        JoinWord::CrossLateral | JoinWord::LeftLateral => true,
        JoinWord::Inner | JoinWord::Left | JoinWord::Right | JoinWord::Full | JoinWord::Cross => {
            false
        }
    }
}

/// Where a query stands: what it is seen with, the scopes around its cores, and whether the word PROVENANCE may stand behind
/// its first SELECT.
#[derive(Clone, Copy)]
pub struct Around<'a> {
    pub alloc: Global,
    pub catalog: &'a Catalog,
    pub outer: &'a Scopes<'a>,
    pub may_ask: bool,
}

impl<'a> Around<'a> {
    /// Where an expression of a core stands that sees these scopes, and stands so.
    pub fn seeing<'b>(&'b self, scopes: &'b Scopes<'b>, standing: Standing) -> Here<'b>
        ensures place { surroundings result ≡ standing_in (scopes_of scopes.now) standing }
        ensures catalog { result.catalog.now ≡ self.now.catalog.now }
    {
        Here {
            alloc: self.alloc,
            catalog: &*self.catalog,
            scopes,
            standing,
        }
    }

    /// Where an operand stands behind the first, and a query in parentheses.
    pub fn operand(&self) -> Around<'a>
        ensures place { around_of result ≡ may_not_ask (around_of self.now) }
        ensures catalog { result.catalog.now ≡ self.now.catalog.now }
    {
        self.so(false)
    }

    /// Where a subquery of FROM stands.
    pub fn in_from(&self) -> Around<'a>
        ensures place { around_of result ≡ around_in_from (around_of self.now) }
        ensures catalog { result.catalog.now ≡ self.now.catalog.now }
    {
        self.so(true)
    }

    /// Where a lateral subquery of FROM stands that sees these scopes.
    pub fn lateral<'b>(&'b self, scopes: &'b Scopes<'b>) -> Around<'b>
        ensures place { around_of result ≡ around_beside (scopes_of scopes.now) }
        ensures catalog { result.catalog.now ≡ self.now.catalog.now }
    {
        Around {
            alloc: self.alloc,
            catalog: &*self.catalog,
            outer: scopes,
            may_ask: false,
        }
    }

    /// The same place, with the word PROVENANCE or not.
    fn so(&self, may_ask: bool) -> Around<'a>
        ensures place { around_of result ≡ record
            { outer = scopes_of self.now.outer.now; may_ask = may_ask } }
        ensures catalog { result.catalog.now ≡ self.now.catalog.now }
    {
        Around { may_ask, ..*self }
    }
}
