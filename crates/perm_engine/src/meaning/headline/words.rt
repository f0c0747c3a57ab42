//! Laws of queries with the word PROVENANCE and without it: each is the contract of a function that does nothing.
ghost use Rattle.std.specs.Prelude.{◌≡◌, ◌≢◌, ◌⊎◌, ℕ, List, [], ◌∷◌};
ghost use Rattle.bag_algebra.specs.declared.query.Answer.{Answer};
ghost use Rattle.bag_algebra.specs.declared.query.Query.{Query};
ghost use Rattle.bag_algebra.specs.declared.query.Query.TheVariants.{Prov};
ghost use Rattle.name_meaning.specs.Froms.{read_names, read_query, read_view};
ghost use Rattle.name_meaning.specs.Meanings.{QueryMeant};
ghost use Rattle.name_meaning.specs.Statements.{breaks, query_meant, resolved};
ghost use Rattle.name_meaning.specs.declared.answer.Break.{Break};
ghost use Rattle.name_meaning.specs.declared.answer.Resolved.TheVariants as made;
ghost use Rattle.name_meaning.specs.declared.scope.Scope.{Scope};
ghost use Rattle.perm_catalog.specs.Contents.{Contents};
ghost use Rattle.perm_catalog.specs.declared.entries.ViewEntry.{ViewEntry};
ghost use Rattle.sql_tree.specs.declared.name.Name.{Name};
ghost use Rattle.sql_tree.specs.declared.query.QueryTree.{QueryTree};
ghost use Rattle.sql_tree.specs.declared.query.SetTree.{SetTree};
ghost use Rattle.sql_tree.specs.declared.statement.Statement.{Statement};
ghost use Rattle.sql_tree.specs.declared.statement.StatementBody.TheVariants as st;
ghost use Rattle.statement_meaning.specs.laws.Asks.{AsksFor, HasWord, WithoutWord, with_body};
ghost use Rattle.statement_meaning.specs.Asking.{Settled, asked};
ghost use Rattle.statement_meaning.specs.Turns.{Broken, Refused};
ghost use Rattle.perm_engine.specs.meaning.headline.Sources.{IsOverProvenance, KeepsProvenance, subquery};
ghost use Rattle.perm_engine.specs.meaning.headline.Words.{LacksWord, asking};

/// A query as a statement is refused with the first rule that it breaks, or it breaks none and asks for what it is resolved to.
pub fn a_query_is_refused_or_asks()
    ensures { (c : Contents) (statement : Statement) (tree : QueryTree) → statement.body ≡ st.Select tree
        → ((first : Break) × (more : List Break) × (breaks c statement ≡ first ∷ more)
        × (asked c statement ≡ Settled (Refused (Broken first))))
        ⊎ ((answer : Answer) × AsksFor c statement answer) }
{}

/// The word PROVENANCE stands behind the first SELECT of a query, or it doesn't.
pub fn a_query_has_the_word_or_not()
    ensures { (tree : SetTree) → ((at : ℕ) × HasWord at tree) ⊎ LacksWord tree }
{}

/// Without the word a query asks for no PROVENANCE: none stands at the front of what it is resolved to.
pub fn without_the_word_no_provenance_stands_in_front()
    ensures { (c : Contents) (statement : Statement) (answer : Answer) (tree : QueryTree)
        → AsksFor c statement answer → statement.body ≡ st.Select tree → LacksWord tree.body
        → (q : Query) → answer.query ≢ Prov q }
{}

/// Where a query with the word breaks no rule, limits included, the same query without it breaks none either: it is as wide or
/// less, and lower and smaller by one.
pub fn without_the_word_a_query_breaks_no_more()
    ensures { (c : Contents) (statement : Statement) (answer : Answer)
        (tree : QueryTree) (at : ℕ) (body : SetTree)
        → AsksFor c statement answer → statement.body ≡ st.Select tree → HasWord at tree.body
        → WithoutWord tree.body body
        → (plain : Answer) × AsksFor c (asking statement (with_body tree body)) plain
        × (answer.query ≡ Prov plain.query) × (answer.keys ≡ plain.keys) }
{}

/// In FROM, a subquery with the word, and a view that was made with it, are sources over the PROVENANCE of the same query without
/// the word, which breaks no rule either: without a mark their provenance columns are external ones.
pub fn the_word_in_from_asks_for_provenance()
    ensures subquery { (c : Contents) (outer : List Scope)
        (tree : QueryTree) (at : ℕ) (body : SetTree)
        → HasWord at tree.body → WithoutWord tree.body body → (subquery c outer tree).breaks ≡ []
        → IsOverProvenance (read_names (read_query (subquery c outer tree)))
        (read_query (subquery c outer tree)) (subquery c outer (with_body tree body)) }
    ensures view { (c : Contents) (statement : Statement) (view : Name)
        (tree : QueryTree) (at : ℕ) (body : SetTree)
        → breaks c statement ≡ [] → statement.body ≡ st.CreateView view tree
        → HasWord at tree.body → WithoutWord tree.body body
        → (entry : ViewEntry) × (resolved c statement ≡ made.CreateView view.text entry)
        × KeepsProvenance entry (query_meant c (with_body tree body)) }
    ensures named { (name : List ℕ) (entry : ViewEntry) (plain : QueryMeant)
        → KeepsProvenance entry plain → IsOverProvenance entry.answer.names (read_view name entry) plain }
{}
