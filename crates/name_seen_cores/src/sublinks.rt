//! What sublinks ask of their queries.
ghost use Rattle.std.specs.Prelude.{◌≡◌, List as Items, nat_eq, length};
ghost use Rattle.name_meaning.specs.Meanings.{QueryMeant};
ghost use Rattle.name_meaning.specs.Sublinks.{in_tested};
ghost use Rattle.name_meaning.specs.declared.scope.Scope.{Scope};
ghost use Rattle.name_seen_parts.specs.Standing.{standing_in};
ghost use Rattle.name_seen_cores.specs.Inner.{InnerSeen, exists_over, scalar_over, tested_over, tested_by, kind_of_first};
ghost use Rattle.name_seen_cores.specs.from.Queried.{QueryWhole};

use crate::from::{Facts, QueryShown};
use name_meaning::{Break, Rule};
use name_seen_parts::{Refusal, ShownColumn, Standing, unites};
use perm_values::Kind;

/// The columns of a sublink's query: whether it is one, and the kind of the first.
#[derive(Clone, Copy, PartialEq, Eq)]
pub struct InnerColumns {
    pub one: bool,
    pub kind: Option<Kind>,
}

/// The columns of a sublink's query, whose facts come behind those so far.
pub fn add_inner(shown: QueryShown, facts: &mut Facts) -> Result<InnerColumns, Refusal>
    ensures { (q : QueryMeant) → QueryWhole q shown → InnerSeen q facts.old facts.new result }
{
    let one = is_one(shown.columns.as_slice());
    let kind = kind_of_first(shown.columns.as_slice());
    let QueryShown { facts: own, .. } = shown;
    match facts.add(own) {
        Ok(()) => Ok(InnerColumns { one, kind }),
        Err(_) => Err(Refusal::NoMemory),
    }
}

fn is_one(columns: &[ShownColumn]) -> bool
    ensures { result ≡ nat_eq (length columns.now) 1 }
{
    columns.len() == 1
}

/// The kind of the first column; none where there is no column, and where that one is of any kind. It takes no memory.
pub fn kind_of_first(columns: &[ShownColumn]) -> Option<Kind>
    ensures { result ≡ kind_of_first columns.now }
{
    match columns.first() {
        None => None,
        Some(column) => column.kind,
    }
}

/// How the left operand of a sublink stands: no sublink stands in it.
pub fn in_tested(standing: Standing) -> Standing
    ensures { (scopes : Items Scope) → standing_in scopes result ≡ in_tested (standing_in scopes standing) }
{
    Standing {
        sublinks: false,
        ..standing
    }
}

/// The kind of EXISTS over a query that was answered or refused.
pub fn exists_over(inner: Result<InnerColumns, Refusal>) -> Result<Option<Kind>, Refusal>
    ensures { result ≡ exists_over inner }
{
    match inner {
        Ok(_) => Ok(Some(Kind::Boolean)),
        Err(refusal) => Err(refusal),
    }
}

/// The kind of a query at this offset as a value, or that it has not one column.
pub fn scalar_over(at: usize, inner: Result<InnerColumns, Refusal>) -> Result<Option<Kind>, Refusal>
    ensures { result ≡ scalar_over at inner }
{
    match inner {
        Ok(inner) => {
            if !inner.one {
                return Err(Refusal::Break(Break {
                    rule: Rule::UnfitWidth,
                    at,
                }));
            }
            Ok(inner.kind)
        }
        Err(refusal) => Err(refusal),
    }
}

/// The kind of a test against a query at this offset, or that the query has not one column of a kind that unites with
/// that of the left operand.
pub fn tested_over(
    tested: Result<Option<Kind>, Refusal>,
    at: usize,
    inner: Result<InnerColumns, Refusal>,
) -> Result<Option<Kind>, Refusal>
    ensures { result ≡ tested_over tested at inner }
{
    match tested {
        Ok(tested) => tested_by(tested, at, inner),
        Err(refusal) => Err(refusal),
    }
}

fn tested_by(
    tested: Option<Kind>,
    at: usize,
    inner: Result<InnerColumns, Refusal>,
) -> Result<Option<Kind>, Refusal>
    ensures { result ≡ tested_by tested at inner }
{
    match inner {
        Ok(inner) => {
            if !inner.one {
                return Err(Refusal::Break(Break {
                    rule: Rule::UnfitWidth,
                    at,
                }));
            }
            if !unites(tested, inner.kind) {
                return Err(Refusal::Break(Break {
                    rule: Rule::UnfitKind,
                    at,
                }));
            }
            Ok(Some(Kind::Boolean))
        }
        Err(refusal) => Err(refusal),
    }
}
