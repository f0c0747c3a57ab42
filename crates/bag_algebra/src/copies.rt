//! Copies of queries, each equal to its source.
ghost use Rattle.std.specs.Prelude.{◌≡◌, IfOk};

use crate::expr::Expr;
use crate::place::Place;
use crate::query::{Aggr, Answer, Label, Query, Sublink};
use perm_values::{Boxed, Copyable, List, NoMemory, both, four, three};
use std::alloc::Global;

impl Copyable for Query {
    fn copy(&self, alloc: Global) -> Result<Query, NoMemory> {
        copy_query(alloc, self)
    }
}

impl Copyable for Sublink {
    fn copy(&self, alloc: Global) -> Result<Sublink, NoMemory> {
        let (tested, query) = both(self.tested.copy(alloc), copy_query(alloc, &self.query))?;
        Ok(Sublink {
            kind: self.kind,
            tested,
            query,
        })
    }
}

impl Copyable for Aggr {
    fn copy(&self, alloc: Global) -> Result<Aggr, NoMemory> {
        Ok(Aggr {
            function: self.function,
            argument: self.argument.copy(alloc)?,
            kind: self.kind,
        })
    }
}

impl Copyable for Label {
    fn copy(&self, alloc: Global) -> Result<Label, NoMemory> {
        match self {
            Label::Relation { name, columns } => {
                let (name, columns) = both(name.copy(alloc), columns.copy(alloc))?;
                Ok(Label::Relation { name, columns })
            }
            Label::External { columns } => Ok(Label::External {
                columns: columns.copy(alloc)?,
            }),
        }
    }
}

impl Copyable for Place {
    fn copy(&self, alloc: Global) -> Result<Place, NoMemory> {
        let (label, kinds) = both(self.label.copy(alloc), self.kinds.copy(alloc))?;
        Ok(Place { label, kinds })
    }
}

impl Copyable for Answer {
    fn copy(&self, alloc: Global) -> Result<Answer, NoMemory> {
        let (query, names, keys) = three(
            copy_query(alloc, &self.query),
            self.names.copy(alloc),
            self.keys.copy(alloc),
        )?;
        Ok(Answer { query, names, keys })
    }
}

#[cycle(copy_query)]
fn copy_query(alloc: Global, query: &Query) -> Result<Query, NoMemory>
    ensures { IfOk result (λ copy. copy ≡ query.now) }
{
    match query {
        Query::Table { id, kinds } => Ok(Query::Table {
            id: *id,
            kinds: kinds.copy(alloc)?,
        }),
        Query::Single => Ok(Query::Single),
        Query::Base {
            input,
            places,
            label,
        } => {
            let (input, places, label) = three(
                copy_boxed(alloc, input),
                places.copy(alloc),
                label.copy(alloc),
            )?;
            Ok(Query::Base {
                input,
                places,
                label,
            })
        }
        Query::Filter {
            input,
            condition,
            subs,
        } => {
            let (input, subs, condition) = three(
                copy_boxed(alloc, input),
                copy_subs(alloc, subs.as_slice()),
                condition.copy(alloc),
            )?;
            Ok(Query::Filter {
                input,
                condition,
                subs,
            })
        }
        Query::Project { input, items, subs } => {
            let (input, subs, items) = three(
                copy_boxed(alloc, input),
                copy_subs(alloc, subs.as_slice()),
                items.copy(alloc),
            )?;
            Ok(Query::Project { input, items, subs })
        }
        Query::Join {
            kind,
            left,
            right,
            condition,
            subs,
        } => {
            let (left, right, subs, condition) = four(
                copy_boxed(alloc, left),
                copy_boxed(alloc, right),
                copy_subs(alloc, subs.as_slice()),
                condition.copy(alloc),
            )?;
            Ok(Query::Join {
                kind: *kind,
                left,
                right,
                condition,
                subs,
            })
        }
        Query::Union { all, left, right } => {
            let (left, right) = both(copy_boxed(alloc, left), copy_boxed(alloc, right))?;
            Ok(Query::Union {
                all: *all,
                left,
                right,
            })
        }
        Query::Intersect { all, left, right } => {
            let (left, right) = both(copy_boxed(alloc, left), copy_boxed(alloc, right))?;
            Ok(Query::Intersect {
                all: *all,
                left,
                right,
            })
        }
        Query::Except { all, left, right } => {
            let (left, right) = both(copy_boxed(alloc, left), copy_boxed(alloc, right))?;
            Ok(Query::Except {
                all: *all,
                left,
                right,
            })
        }
        Query::Distinct { input } => Ok(Query::Distinct {
            input: copy_boxed(alloc, input)?,
        }),
        Query::Aggregate {
            input,
            groups,
            aggregates,
        } => {
            let (input, groups, aggregates) = three(
                copy_boxed(alloc, input),
                groups.copy(alloc),
                aggregates.copy(alloc),
            )?;
            Ok(Query::Aggregate {
                input,
                groups,
                aggregates,
            })
        }
        Query::Limit { input, keys, count } => {
            let (input, keys) = both(copy_boxed(alloc, input), keys.copy(alloc))?;
            Ok(Query::Limit {
                input,
                keys,
                count: *count,
            })
        }
        Query::Prov { input } => Ok(Query::Prov {
            input: copy_boxed(alloc, input)?,
        }),
        Query::Apply { kind, left, right } => {
            let (left, right) = both(copy_boxed(alloc, left), copy_boxed(alloc, right))?;
            Ok(Query::Apply {
                kind: *kind,
                left,
                right,
            })
        }
    }
}

#[cycle(copy_query)]
fn copy_boxed(alloc: Global, query: &Boxed<Query>) -> Result<Boxed<Query>, NoMemory>
    ensures { IfOk result (λ copy. copy ≡ query.now) }
{
    let copy = copy_query(alloc, query.get())?;
    Boxed::new(alloc, copy)
}

#[cycle(copy_query)]
fn copy_subs(alloc: Global, subs: &[Sublink]) -> Result<List<Sublink>, NoMemory>
    ensures { IfOk result (λ copy. copy ≡ subs.now) }
{
    let mut copy = List::new(alloc);
    for sub in subs {
        let kind = sub.kind;
        let (tested, query) = both(sub.tested.copy(alloc), copy_query(alloc, &sub.query))?;
        copy.push(Sublink {
            kind,
            tested,
            query,
        })?;
    }
    Ok(copy)
}
