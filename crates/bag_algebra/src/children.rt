//! The children of a node of a query: its inputs and its sublinks.
ghost use Rattle.std.specs.Prelude.{◌≡◌};
ghost use Rattle.bag_algebra.specs.Inputs.{given, inputs_of, sublinks_of};

use crate::query::{Query, Sublink};

/// The inputs of a node.
#[derive(Clone, Copy)]
pub enum Inputs<'a> {
    Zero,
    One(&'a Query),
    Two(&'a Query, &'a Query),
}

impl Query {
    /// The inputs of the topmost node, in order. It takes no memory.
    pub fn inputs(&self) -> Inputs<'_>
        ensures { given result ≡ inputs_of self.now }
    {
        match self {
            Query::Table { .. } => Inputs::Zero,
            Query::Single => Inputs::Zero,
            Query::Base { input, .. } => Inputs::One(input.get()),
            Query::Filter { input, .. } => Inputs::One(input.get()),
            Query::Project { input, .. } => Inputs::One(input.get()),
            Query::Join { left, right, .. } => Inputs::Two(left.get(), right.get()),
            Query::Apply { left, right, .. } => Inputs::Two(left.get(), right.get()),
            Query::Union { left, right, .. } => Inputs::Two(left.get(), right.get()),
            Query::Intersect { left, right, .. } => Inputs::Two(left.get(), right.get()),
            Query::Except { left, right, .. } => Inputs::Two(left.get(), right.get()),
            Query::Distinct { input } => Inputs::One(input.get()),
            Query::Aggregate { input, .. } => Inputs::One(input.get()),
            Query::Limit { input, .. } => Inputs::One(input.get()),
            Query::Prov { input } => Inputs::One(input.get()),
        }
    }

    /// The sublinks in the expressions of the topmost node, in the order of their numbers. It takes no memory.
    pub fn sublinks(&self) -> &[Sublink]
        ensures { result.now ≡ sublinks_of self.now }
    {
        match self {
            Query::Table { .. } => &[],
            Query::Single => &[],
            Query::Base { .. } => &[],
            Query::Filter { subs, .. } => subs.as_slice(),
            Query::Project { subs, .. } => subs.as_slice(),
            Query::Join { subs, .. } => subs.as_slice(),
            Query::Apply { .. } => &[],
            Query::Union { .. } => &[],
            Query::Intersect { .. } => &[],
            Query::Except { .. } => &[],
            Query::Distinct { .. } => &[],
            Query::Aggregate { .. } => &[],
            Query::Limit { .. } => &[],
            Query::Prov { .. } => &[],
        }
    }
}
