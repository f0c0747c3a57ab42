//! Each law is the contract of a function that does nothing.
ghost use Rattle.std.specs.Prelude.{◌≡◌, ◌↔◌, [], IsTrue, List};
ghost use Rattle.perm_values.specs.declared.kind.Kind.{Kind};
ghost use Rattle.bag_algebra.specs.Kinds.{shape};
ghost use Rattle.bag_algebra.specs.Rewriting.{is_plain, IsRewrite, Stands};
ghost use Rattle.bag_algebra.specs.WellFormed.{WellFormed};
ghost use Rattle.bag_algebra.specs.declared.query.Query.TheVariants.{Distinct, Prov};
ghost use Rattle.bag_algebra.specs.declared.query.Query.{Query};
ghost use Rattle.rewrite_core.specs.rewritings.OpenSublinks.{NoOpenSublink, NoSublinkReadsOut};

/// A plain query stands for itself; and what stands for what stands for a query stands for that query.
pub fn standing_is_reflexive_and_transitive()
    ensures itself { (q : Query) → IsTrue (is_plain q) → Stands q q }
    ensures onward { (q b c : Query) → Stands q b → Stands b c → Stands q c }
{}

/// Each row of a rewriting once: that stands for the PROVENANCE of the query, in which each pair of a row and a witness list
/// stands once. It is a rewriting of that PROVENANCE too, which has no places of its own.
pub fn distinct_rows_of_rewritings_stand_for_provenance()
    ensures stand { (q p : Query) → IsRewrite q p → Stands (Prov q) (Distinct p) }
    ensures rewrite { (q p : Query) → IsRewrite q p → IsRewrite (Prov q) (Distinct p) }
{}

/// A query without places has one witness list for each of its rows, the one without entries; so what stands for the query
/// is a rewriting of it.
pub fn queries_without_places_rewrite_as_what_stands()
    ensures { (q b : Query) → shape q ≡ [] → Stands q b → IsRewrite q b }
{}

/// A well formed query has no open sublink exactly where none of its sublinks, at any depth, has a query with a column of an outer
/// row.
pub fn closed_sublinks_read_no_outer_row()
    ensures { (outer : List (List Kind)) (q : Query) → WellFormed outer q →
        NoOpenSublink q ↔ NoSublinkReadsOut q }
{}
