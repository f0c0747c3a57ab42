//! What a sublink contributes on a row of its node.
ghost use Rattle.std.specs.Prelude.{◌≡◌, ◌↔◌, List, ◌∷◌, Contains};
ghost use Rattle.perm_values.specs.declared.value.Value.{Value};
ghost use Rattle.bag_algebra.specs.Bags.{Row, Bag};
ghost use Rattle.bag_algebra.specs.Kinds.{shape};
ghost use Rattle.bag_algebra.specs.Meaning.{Database, denote, meaning, optional_value};
ghost use Rattle.bag_algebra.specs.Means.{Witness, all_empty, chosen, contribution_of};
ghost use Rattle.bag_algebra.specs.Outcome.{Good};
ghost use Rattle.bag_algebra.specs.declared.query.SubKind.{SubKind};
ghost use Rattle.bag_algebra.specs.declared.query.Sublink.{Sublink};
ghost use Rattle.query_laws.specs.SublinkLists.{IsChosen, Contributes};

/// The rows of a sublink's query that contribute are those that compare true where it is a true ANY, those that compare
/// false where it is a false ALL, and otherwise all; its contributions are their witness lists, and the all-empty list
/// where the query has no row.
pub fn contributions_are_lists_of_chosen_rows()
    ensures chosen { (kind : SubKind) (x : Value) (bag : Bag) (v : Row) → Contains (chosen kind x bag) v ↔
        IsChosen kind x bag v }
    ensures contributions { (sub : Sublink) (db : Database) (env : List Row) (u : Row) (x : Value) (bag : Bag)
        (c : Witness) →
        optional_value sub.tested env u ≡ Good x → meaning sub.query db (u ∷ env) ≡ Good bag →
        Contains (contribution_of (all_empty (shape sub.query)) sub.kind x
        (denote sub.query db (u ∷ env))) c ↔ Contributes db env u sub c }
{}
