//! Nodes of queries over inputs that aren't boxed yet. Where one can't be made, what it was to be made of is let go.
ghost use Rattle.std.specs.Prelude.{◌≡◌, IfOk};
ghost use Rattle.bag_algebra.specs.declared.query.Query.TheVariants.{Base, Filter, Project, Join, Apply, Union, Intersect, Except, Distinct, Aggregate, Limit, Prov};

use crate::expr::{Expr, Item};
use crate::query::{Aggr, JoinKind, Label, Query, Sublink};
use perm_values::{Boxed, Key, List, NoMemory, boxes};
use std::alloc::Global;

impl Query {
    /// The input as a source with these places. It fails only for want of memory.
    pub fn base(
        alloc: Global,
        input: Query,
        places: List<usize>,
        label: Label,
    ) -> Result<Query, NoMemory>
        ensures { IfOk result (λ made. made ≡ Base input places label) }
    {
        let Ok(input) = Boxed::new(alloc, input) else {
            drop(places);
            drop(label);
            return Err(NoMemory);
        };
        Ok(Query::Base {
            input,
            places,
            label,
        })
    }

    /// The input's rows on which the condition is true. It fails only for want of memory.
    pub fn filter(
        alloc: Global,
        input: Query,
        condition: Expr,
        subs: List<Sublink>,
    ) -> Result<Query, NoMemory>
        ensures { IfOk result (λ made. made ≡ Filter input condition subs) }
    {
        let Ok(input) = Boxed::new(alloc, input) else {
            drop(condition);
            drop(subs);
            return Err(NoMemory);
        };
        Ok(Query::Filter {
            input,
            condition,
            subs,
        })
    }

    /// The items of the input's rows. It fails only for want of memory.
    pub fn project(
        alloc: Global,
        input: Query,
        items: List<Item>,
        subs: List<Sublink>,
    ) -> Result<Query, NoMemory>
        ensures { IfOk result (λ made. made ≡ Project input items subs) }
    {
        let Ok(input) = Boxed::new(alloc, input) else {
            drop(items);
            drop(subs);
            return Err(NoMemory);
        };
        Ok(Query::Project { input, items, subs })
    }

    /// The join of the inputs on the condition. It fails only for want of memory.
    pub fn join(
        alloc: Global,
        kind: JoinKind,
        left: Query,
        right: Query,
        condition: Expr,
        subs: List<Sublink>,
    ) -> Result<Query, NoMemory>
        ensures { IfOk result (λ made. made ≡ Join kind left right condition subs) }
    {
        let Ok((left, right)) = boxes(alloc, left, right) else {
            drop(condition);
            drop(subs);
            return Err(NoMemory);
        };
        Ok(Query::Join {
            kind,
            left,
            right,
            condition,
            subs,
        })
    }

    /// Each left row beside the rows of the right side, which sees it as its nearest outer row. It fails only for want
    /// of memory.
    pub fn apply(
        alloc: Global,
        kind: JoinKind,
        left: Query,
        right: Query,
    ) -> Result<Query, NoMemory>
        ensures { IfOk result (λ made. made ≡ Apply kind left right) }
    {
        let (left, right) = boxes(alloc, left, right)?;
        Ok(Query::Apply { kind, left, right })
    }

    /// The rows of either input. It fails only for want of memory.
    pub fn union(alloc: Global, all: bool, left: Query, right: Query) -> Result<Query, NoMemory>
        ensures { IfOk result (λ made. made ≡ Union all left right) }
    {
        let (left, right) = boxes(alloc, left, right)?;
        Ok(Query::Union { all, left, right })
    }

    /// The rows of both inputs. It fails only for want of memory.
    pub fn intersect(alloc: Global, all: bool, left: Query, right: Query) -> Result<Query, NoMemory>
        ensures { IfOk result (λ made. made ≡ Intersect all left right) }
    {
        let (left, right) = boxes(alloc, left, right)?;
        Ok(Query::Intersect { all, left, right })
    }

    /// The left input's rows without the right input's. It fails only for want of memory.
    pub fn except(alloc: Global, all: bool, left: Query, right: Query) -> Result<Query, NoMemory>
        ensures { IfOk result (λ made. made ≡ Except all left right) }
    {
        let (left, right) = boxes(alloc, left, right)?;
        Ok(Query::Except { all, left, right })
    }

    /// The input's rows, each once. It fails only for want of memory.
    pub fn distinct(alloc: Global, input: Query) -> Result<Query, NoMemory>
        ensures { IfOk result (λ made. made ≡ Distinct input) }
    {
        let input = Boxed::new(alloc, input)?;
        Ok(Query::Distinct { input })
    }

    /// The input's groups with their aggregates. It fails only for want of memory.
    pub fn aggregate(
        alloc: Global,
        input: Query,
        groups: List<usize>,
        aggregates: List<Aggr>,
    ) -> Result<Query, NoMemory>
        ensures { IfOk result (λ made. made ≡ Aggregate input groups aggregates) }
    {
        let Ok(input) = Boxed::new(alloc, input) else {
            drop(groups);
            drop(aggregates);
            return Err(NoMemory);
        };
        Ok(Query::Aggregate {
            input,
            groups,
            aggregates,
        })
    }

    /// The first rows of the input in the order of the keys. It fails only for want of memory.
    pub fn limit(
        alloc: Global,
        input: Query,
        keys: List<Key>,
        count: u64,
    ) -> Result<Query, NoMemory>
        ensures { IfOk result (λ made. made ≡ Limit input keys count) }
    {
        let Ok(input) = Boxed::new(alloc, input) else {
            drop(keys);
            return Err(NoMemory);
        };
        Ok(Query::Limit { input, keys, count })
    }

    /// The input with its provenance. It fails only for want of memory.
    pub fn provenance(alloc: Global, input: Query) -> Result<Query, NoMemory>
        ensures { IfOk result (λ made. made ≡ Prov input) }
    {
        let input = Boxed::new(alloc, input)?;
        Ok(Query::Prov { input })
    }
}
