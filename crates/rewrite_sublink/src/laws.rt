//! Each law is the contract of a function that does nothing.
ghost use Rattle.std.specs.Prelude.{List, length, IsTrue};
ghost use Rattle.bag_algebra.specs.Kinds.{width_of};
ghost use Rattle.bag_algebra.specs.Rewriting.{IsRewrite};
ghost use Rattle.bag_algebra.specs.declared.expr.Expr.{Expr};
ghost use Rattle.bag_algebra.specs.declared.expr.Item.{Item};
ghost use Rattle.bag_algebra.specs.declared.query.Query.TheVariants.{Filter, Project};
ghost use Rattle.bag_algebra.specs.declared.query.Query.{Query};
ghost use Rattle.bag_algebra.specs.declared.query.Sublink.{Sublink};
ghost use Rattle.query_laws.specs.Standing.{SubsStand};
ghost use Rattle.bag_algebra.specs.built.Scopes.{all_over_tables};
ghost use Rattle.rewrite_sublink.specs.Candidates.{all_contributed, answer_columns, beside_row};
ghost use Rattle.rewrite_sublink.specs.SubRewritings.{SubsRewritten};

/// A Filter whose sublinks, of any kind and in any number, have their sources over tables: what it keeps of its input's
/// rewriting, and then for each sublink in turn the candidates of its cross base that are one of its contributions, is a
/// rewriting of it, under all outer rows and with the same faults. `standing` has for each sublink a plain one that
/// stands for it, and `rewritings` a rewriting of each sublink's query.
pub fn filters_over_candidates_rewrite()
    ensures { (q rewriting : Query) (condition : Expr) (subs standing : List Sublink)
        (rewritings : List Query) →
        IsTrue (all_over_tables subs) → IsRewrite q rewriting → SubsStand subs standing →
        SubsRewritten subs rewritings →
        IsRewrite (Filter q condition subs)
        (all_contributed (Filter rewriting condition standing) subs standing rewritings) }
{}

/// So is, of a Project, what its items make of its input's rewriting, beside that rewriting's provenance and the candidates.
pub fn projects_over_candidates_rewrite()
    ensures { (q rewriting : Query) (items : List Item) (subs standing : List Sublink)
        (rewritings : List Query) →
        IsTrue (all_over_tables subs) → IsRewrite q rewriting → SubsStand subs standing →
        SubsRewritten subs rewritings →
        IsRewrite (Project q items subs)
        (answer_columns
        (all_contributed (Project rewriting (beside_row rewriting items) standing) subs standing rewritings)
        (width_of q) (width_of rewriting) (length items)) }
{}
