//! Each law is the contract of a function that does nothing.
ghost use Rattle.std.specs.Prelude.{List, length};
ghost use Rattle.bag_algebra.specs.Kinds.{width_of};
ghost use Rattle.bag_algebra.specs.Rewriting.{IsRewrite};
ghost use Rattle.bag_algebra.specs.declared.expr.Expr.{Expr};
ghost use Rattle.bag_algebra.specs.declared.expr.Item.{Item};
ghost use Rattle.bag_algebra.specs.declared.query.JoinKind.{JoinKind};
ghost use Rattle.bag_algebra.specs.declared.query.Query.TheVariants.{Apply, Filter, Project};
ghost use Rattle.bag_algebra.specs.declared.query.Query.{Query};
ghost use Rattle.bag_algebra.specs.declared.query.Sublink.{Sublink};
ghost use Rattle.query_laws.specs.Standing.{SubsStand};
ghost use Rattle.rewrite_sublink.specs.Candidates.{answer_columns, beside_row};
ghost use Rattle.rewrite_sublink.specs.SubRewritings.{SubsRewritten};
ghost use Rattle.lateral_rewrite.specs.Applied.{applied};
ghost use Rattle.lateral_rewrite.specs.Dependent.{all_contributed};

/// A Filter with sublinks of any kind, in any number and over any source: what it keeps of its input's rewriting, and then
/// for each sublink in turn the provenance of the rows that contribute, under each row, is a rewriting of it, under all
/// outer rows and with the same faults. `standing` has for each sublink a plain one that stands for it, and `rewritings` a
/// rewriting of each sublink's query.
pub fn filters_over_dependent_joins_rewrite()
    ensures { (q rewriting : Query) (condition : Expr) (subs standing : List Sublink)
        (rewritings : List Query) →
        IsRewrite q rewriting → SubsStand subs standing → SubsRewritten subs rewritings →
        IsRewrite (Filter q condition subs)
        (all_contributed (Filter rewriting condition standing) standing rewritings) }
{}

/// So is, of a Project, what its items make of its input's rewriting, beside that rewriting's provenance and the contributions.
pub fn projects_over_dependent_joins_rewrite()
    ensures { (q rewriting : Query) (items : List Item) (subs standing : List Sublink)
        (rewritings : List Query) →
        IsRewrite q rewriting → SubsStand subs standing → SubsRewritten subs rewritings →
        IsRewrite (Project q items subs)
        (answer_columns
        (all_contributed (Project rewriting (beside_row rewriting items) standing) standing rewritings)
        (width_of q) (width_of rewriting) (length items)) }
{}

/// The dependent join of rewritings of its two inputs, with its columns before those of provenance, is a rewriting of a
/// dependent join.
pub fn dependent_joins_of_rewritings_rewrite()
    ensures { (kind : JoinKind) (left left_rewriting right right_rewriting : Query) →
        IsRewrite left left_rewriting → IsRewrite right right_rewriting →
        IsRewrite (Apply kind left right) (applied kind left left_rewriting right right_rewriting) }
{}
