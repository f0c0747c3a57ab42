//! Each law is the contract of a function that does nothing.
ghost use Rattle.std.specs.Prelude.{◌≡◌, ◌↔◌, IsTrue, List};
ghost use Rattle.perm_values.specs.declared.kind.Kind.{Kind};
ghost use Rattle.perm_values.specs.declared.value.Value.{Value};
ghost use Rattle.bag_algebra.specs.Bags.{Row};
ghost use Rattle.bag_algebra.specs.Children.{sublink_value};
ghost use Rattle.bag_algebra.specs.Kinds.{shape};
ghost use Rattle.bag_algebra.specs.Meaning.{Database};
ghost use Rattle.bag_algebra.specs.Means.{Witness};
ghost use Rattle.bag_algebra.specs.Outcome.{Good};
ghost use Rattle.bag_algebra.specs.Rewriting.{IsRewrite, Stands, is_plain};
ghost use Rattle.bag_algebra.specs.WellFormed.{WellFormed};
ghost use Rattle.bag_algebra.specs.built.Patterns.{ApplyOf};
ghost use Rattle.bag_algebra.specs.declared.query.JoinKind.TheVariants.{Left};
ghost use Rattle.bag_algebra.specs.declared.query.Query.{Query};
ghost use Rattle.bag_algebra.specs.declared.query.Sublink.{Sublink};
ghost use Rattle.query_laws.specs.SublinkLists.{Contributes};
ghost use Rattle.query_laws.specs.spines.Spines.{IsBeside};
ghost use Rattle.rewrite_move.specs.Traced.{traced_of, traced_sub};

/// Where a sublink has a value on a row, what is traced for it has a value there too and the same contributions. It stands over the query
/// that is traced, which has the sublink's places and is well formed where its query is.
pub fn traced_sublinks_contribute_the_same()
    ensures query { (sub : Sublink) → (traced_sub sub).query ≡ traced_of sub }
    ensures places { (sub : Sublink) → shape (traced_of sub) ≡ shape sub.query }
    ensures formed { (sub : Sublink) (outer : List (List Kind)) → WellFormed outer sub.query →
        WellFormed outer (traced_of sub) }
    ensures value { (db : Database) (env : List Row) (b : Row) (sub : Sublink) (v : Value) →
        sublink_value db env b sub ≡ Good v →
        (w : Value) × (sublink_value db env b (traced_sub sub) ≡ Good w) }
    ensures contributions { (db : Database) (env : List Row) (b : Row) (sub : Sublink) (v : Value)
        (c : Witness) → sublink_value db env b sub ≡ Good v →
        Contributes db env b sub c ↔ Contributes db env b (traced_sub sub) c }
{}

/// What stands for a rewriting of a query is one; and what is made of plain rows beside a plain right query, by an ordinary join
/// or not, stands for the dependent join of the two that keeps left rows.
pub fn what_stands_for_a_rewriting_is_one()
    ensures rewriting { (n q p : Query) → IsRewrite n q → Stands q p → IsRewrite n p }
    ensures beside { (rows right p : Query) → IsTrue (is_plain rows) → IsTrue (is_plain right) →
        IsBeside rows right p → Stands (ApplyOf Left rows right) p }
{}
