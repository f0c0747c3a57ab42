//! That the text of a SELECT with groups is read as what it was printed for.
//! Each law is the contract of a function that does nothing.
ghost use Rattle.std.specs.Prelude.{ℕ, suc, ◌+◌, ◌<◌, ◌^◌, List, ◌∷◌, length};
ghost use Rattle.perm_values.specs.Rows.{PlacesWithin};
ghost use Rattle.perm_values.specs.declared.kind.Kind.{Kind};
ghost use Rattle.bag_algebra.specs.WellFormed.{AggregatesForm};
ghost use Rattle.bag_algebra.specs.declared.query.Aggr.{Aggr};
ghost use Rattle.bag_algebra.specs.declared.query.Query.{Query};
ghost use Rattle.perm_catalog.specs.Contents.{Contents};
ghost use Rattle.name_meaning.specs.Froms.{in_from};
ghost use Rattle.name_meaning.specs.Meanings.{Around};
ghost use Rattle.tree_texts.specs.Forms.{QueryForm, no_condition};
ghost use Rattle.query_texts.specs.clauses.Names.{naming};
ghost use Rattle.query_texts.specs.forms.ShownQueries as writing;
ghost use Rattle.sql_printer.specs.rows.Printed as printing;
ghost use Rattle.sql_printer.specs.rows.Writable.{WritableAggregates};
ghost use Rattle.sql_printer.specs.expressions.Scopes.{Few, ScopesAre, marks};
ghost use Rattle.sql_printer.specs.cores.Queries.{CoreFormRead, FormRead, numbered_names};
ghost use Rattle.sql_printer.specs.groups.Groups.{kinds_of_groups};

/// The SELECT with GROUP BY over a printed query is read as what is printed of the groups, over what
/// that query is read as.
pub fn printed_groups_are_read_back()
    ensures { (c : Contents) (depth : ℕ) (scopes : List (List Kind)) (unread : List ℕ)
        (around : Around) (kind : Kind) (more : List Kind) → Few (kind ∷ more)
        → ScopesAre depth scopes unread around.outer → (form : QueryForm) (q : Query)
        → FormRead c (in_from around.outer) (numbered_names (suc depth) 1 (kind ∷ more))
        (kind ∷ more) form q
        → (group : ℕ) (others : List ℕ) (aggregates : List Aggr)
        → PlacesWithin (length (kind ∷ more)) (group ∷ others)
        → AggregatesForm ((kind ∷ more) ∷ scopes) aggregates → WritableAggregates aggregates
        → 1 + (length (group ∷ others) + length aggregates) < 2 ^ 64
        → (out first : ℕ)
        → CoreFormRead c around
        (numbered_names out first (kinds_of_groups (kind ∷ more) (group ∷ others) aggregates))
        (kinds_of_groups (kind ∷ more) (group ∷ others) aggregates)
        (writing.in_groups (marks (suc depth)) (naming (marks out) first) (group ∷ others) aggregates
        (writing.just form) no_condition)
        (printing.in_groups ((kind ∷ more) ∷ scopes) (0 ∷ unread) 0 (group ∷ others) aggregates
        (kind ∷ more) q) }
{}
