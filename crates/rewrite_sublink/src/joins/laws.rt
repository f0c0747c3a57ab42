//! Each law is the contract of a function that does nothing.
ghost use Rattle.std.specs.Prelude.{[], List};
ghost use Rattle.bag_algebra.specs.Rewriting.{IsRewrite};
ghost use Rattle.bag_algebra.specs.declared.expr.Expr.{Expr};
ghost use Rattle.bag_algebra.specs.declared.query.JoinKind.{JoinKind};
ghost use Rattle.bag_algebra.specs.declared.query.JoinKind.TheVariants.{Inner};
ghost use Rattle.bag_algebra.specs.declared.query.Query.TheVariants.{Filter, Join};
ghost use Rattle.bag_algebra.specs.declared.query.Query.{Query};
ghost use Rattle.bag_algebra.specs.declared.query.Sublink.{Sublink};
ghost use Rattle.contribution.specs.Conjunctions.{always};
ghost use Rattle.rewrite_sublink.specs.joins.ByParts.{by_parts};

/// A rewriting of the pairs of all rows on which a condition is true, with sublinks of any kind, is one of the inner join on
/// that condition.
pub fn inner_joins_rewrite_as_chosen_pairs()
    ensures { (left right : Query) (condition : Expr) (subs : List Sublink) (p : Query) →
        IsRewrite (Filter (Join Inner left right always []) condition subs) p →
        IsRewrite (Join Inner left right condition subs) p }
{}

/// Such a rewriting, with the rows of the kept sides' rewritings that stand in none of its pairs, beside NULLs for the other
/// side and for the sublinks, is one of the join of any kind. The sublinks are evaluated in the pairs alone, so each fault
/// is met there. A row counts as a value: rows that are the same stand in a pair together, or none of them does.
pub fn outer_joins_rewrite_by_parts()
    ensures { (kind : JoinKind) (left left_rewriting right right_rewriting : Query) (condition : Expr)
        (subs : List Sublink) (pairs : Query) →
        IsRewrite left left_rewriting → IsRewrite right right_rewriting →
        IsRewrite (Filter (Join Inner left right always []) condition subs) pairs →
        IsRewrite (Join kind left right condition subs)
        (by_parts kind left left_rewriting right right_rewriting pairs) }
{}
