//! Each law is the contract of a function that does nothing.
ghost use Rattle.std.specs.Prelude.{◌≡◌, ◌↔◌, ℕ, true, List, [], ◌∷◌, ◌++◌, length, take, Option, Result, Ok, Err};
ghost use Rattle.statement_meaning.specs.explains.Explains.{Explains};
ghost use Rattle.bag_algebra.specs.Bags.{Row, Bag};
ghost use Rattle.bag_algebra.specs.Kinds.{width_of};
ghost use Rattle.bag_algebra.specs.Meaning.{Database, meaning, witnesses};
ghost use Rattle.bag_algebra.specs.Outcome.{Good, Bad, Faults, has};
ghost use Rattle.bag_algebra.specs.TableRows.{rows_in};
ghost use Rattle.bag_algebra.specs.declared.expr.Expr.{Expr};
ghost use Rattle.bag_algebra.specs.declared.query.Answer.{Answer};
ghost use Rattle.bag_algebra.specs.declared.query.Query.TheVariants.{Prov};
ghost use Rattle.bag_algebra.specs.declared.query.Query.{Query};
ghost use Rattle.query_laws.specs.Holding.{InBag, HoldsOnce};
ghost use Rattle.name_meaning.specs.Queries.{provenance_columns};
ghost use Rattle.null_logic.specs.declared.run_fault.RunFault.{RunFault};
ghost use Rattle.perm_catalog.specs.Contents.{Contents};
ghost use Rattle.perm_catalog.specs.Sound.{IsSound};
ghost use Rattle.sql_tree.specs.Regular.{RegularStatement};
ghost use Rattle.sql_tree.specs.declared.query.QueryTree.{QueryTree};
ghost use Rattle.sql_tree.specs.declared.query.SetTree.{SetTree};
ghost use Rattle.sql_tree.specs.declared.statement.Statement.{Statement};
ghost use Rattle.sql_tree.specs.declared.statement.StatementBody.TheVariants as st;
ghost use Rattle.statement_meaning.specs.Answers.{Files, IsTurn, TakesTurn, can_be};
ghost use Rattle.statement_meaning.specs.Asking.{Asked, Settled, asked};
ghost use Rattle.statement_meaning.specs.Turns.{Turn, Cause, Accepted, Refused, Meets, identity_of, rows_before};
ghost use Rattle.statement_meaning.specs.declared.refusal.StepRefusal.TheVariants.{NoMemory as OutOfMemory};
ghost use Rattle.statement_meaning.specs.declared.refusal.StepRefusal.{StepRefusal};
ghost use Rattle.statement_meaning.specs.laws.Asks.{AsksFor, AsksToExplain, HasWord, ResolvesTo, WithoutWord, shown_names, with_body};
ghost use Rattle.statement_meaning.specs.laws.Beside.{IsBeside};
ghost use Rattle.statement_meaning.specs.laws.Lost.{AsksImpact, ListsLost, MeetsLost};
ghost use Rattle.statement_meaning.specs.laws.Printed.{ListsBag, ListsBeside};

/// A query that breaks no rule, with PROVENANCE or without: where it means a bag on the catalog's tables, it stands with the one
/// text that lists each row as often as the bag counts it, in the printed order, and the catalog is as before. Where it is bad,
/// it is refused with exactly the faults that it meets.
pub fn a_plain_answer_is_its_rows()
    ensures good { (c : Contents) (statement : Statement) (answer : Answer) (bag : Bag)
        → AsksFor c statement answer → meaning answer.query (rows_in c.rows) [] ≡ Good bag
        → (text : List ℕ) × ListsBag answer bag text × (asked c statement ≡ Settled (Accepted text c)) }
    ensures bad { (c : Contents) (statement : Statement) (answer : Answer) (faults : Faults)
        → AsksFor c statement answer → meaning answer.query (rows_in c.rows) [] ≡ Bad faults
        → asked c statement ≡ Settled (Refused (Meets faults statement.at)) }
    ensures one_text { (answer : Answer) (bag : Bag) (text other : List ℕ)
        → ListsBag answer bag text → ListsBag answer bag other → text ≡ other }
{}

/// Such a query that is resolved to the PROVENANCE of q: where q means a bag, it stands with the one text that lists, once each,
/// every row of the bag beside every witness list of that row, written out flat, and nothing else; and the catalog is as before.
/// Where q is bad, it is refused with exactly the faults that q meets.
pub fn provenance_answers_are_rows_beside_witness_lists()
    ensures good { (c : Contents) (statement : Statement) (answer : Answer) (q : Query) (bag : Bag)
        → AsksFor c statement answer → answer.query ≡ Prov q → meaning q (rows_in c.rows) [] ≡ Good bag
        → (text : List ℕ) × ListsBeside answer q (rows_in c.rows) bag text
        × (asked c statement ≡ Settled (Accepted text c)) }
    ensures bad { (c : Contents) (statement : Statement) (answer : Answer) (q : Query) (faults : Faults)
        → AsksFor c statement answer → answer.query ≡ Prov q → meaning q (rows_in c.rows) [] ≡ Bad faults
        → asked c statement ≡ Settled (Refused (Meets faults statement.at)) }
    ensures one_text { (answer : Answer) (q : Query) (db : Database) (bag : Bag) (text other : List ℕ)
        → ListsBeside answer q db bag text → ListsBeside answer q db bag other → text ≡ other }
{}

/// Over a sound catalog no row is lost: each row of q stands at the front of some row of that text, and at the front of each row
/// of that text stands a row of q.
pub fn no_answered_row_is_lost()
    ensures { (c : Contents) (statement : Statement) (answer : Answer) (q : Query) (bag : Bag) (text : List ℕ)
        → IsSound c → RegularStatement statement → AsksFor c statement answer → answer.query ≡ Prov q
        → meaning q (rows_in c.rows) [] ≡ Good bag → (given : ListsBeside answer q (rows_in c.rows) bag text)
        → (t : Row) → InBag t bag ↔ ((x : Row) × InBag x given.rows × (take (width_of q) x ≡ t)) }
{}

/// A query behind whose first SELECT the word PROVENANCE stands is resolved to the PROVENANCE of what the same query without
/// the word is resolved to, which breaks no rule of names and kinds either, limits aside. Its rows are printed by the same keys,
/// and over a sound catalog its columns have the names of the other's and then those of the places' columns.
pub fn the_word_asks_for_provenance()
    ensures without { (tree : SetTree) (at : ℕ) → HasWord at tree
        → (plain : SetTree) × WithoutWord tree plain }
    ensures query { (c : Contents) (statement : Statement) (answer : Answer)
        (tree : QueryTree) (at : ℕ) (body : SetTree)
        → AsksFor c statement answer → statement.body ≡ st.Select tree → HasWord at tree.body
        → WithoutWord tree.body body
        → (plain : Answer) × ResolvesTo c (with_body tree body) plain
        × (answer.query ≡ Prov plain.query) × (answer.keys ≡ plain.keys) }
    ensures names { (c : Contents) (statement : Statement) (answer plain : Answer)
        (tree : QueryTree) (at : ℕ) (body : SetTree)
        → IsSound c → AsksFor c statement answer → statement.body ≡ st.Select tree → HasWord at tree.body
        → WithoutWord tree.body body → ResolvesTo c (with_body tree body) plain
        → answer.names ≡ plain.names ++ shown_names (provenance_columns plain.query) }
{}

/// Two statements over one catalog, a query with the word PROVENANCE and the same without it: where the plain one means a bag, it
/// answers each row as often as the bag counts it, and the other one, once each, every row of that bag beside every witness list
/// that the row has in the plain query, and nothing else.
pub fn provenance_stands_beside_the_plain_answer()
    ensures { (c : Contents) (statement plainly : Statement) (answer plain : Answer)
        (tree : QueryTree) (at : ℕ) (body : SetTree)
        → (bag : Bag) → AsksFor c statement answer → statement.body ≡ st.Select tree → HasWord at tree.body
        → WithoutWord tree.body body → AsksFor c plainly plain
        → plainly.body ≡ st.Select (with_body tree body)
        → meaning plain.query (rows_in c.rows) [] ≡ Good bag
        → (text : List ℕ) × (provenance : List ℕ)
        × ListsBag plain bag text × (asked c plainly ≡ Settled (Accepted text c))
        × ListsBeside answer plain.query (rows_in c.rows) bag provenance
        × (asked c statement ≡ Settled (Accepted provenance c)) }
{}

/// PROVENANCE inside another query, in its FROM or in a sublink, means the same there, on every database and under all outer
/// rows: once each, every row of q beside every witness list that the row has there, and nothing else; and it is bad exactly
/// where q is, with the same faults. Of itself it contributes nothing: each of its rows has the one list without entries.
pub fn nested_provenance_means_the_same()
    ensures good { (q : Query) (db : Database) (env : List Row) (bag : Bag) → meaning q db env ≡ Good bag
        → (rows : Bag) × (meaning (Prov q) db env ≡ Good rows) × HoldsOnce (IsBeside q db env bag) rows }
    ensures bad { (q : Query) (db : Database) (env : List Row) (faults : Faults)
        → (meaning (Prov q) db env ≡ Bad faults) ↔ (meaning q db env ≡ Bad faults) }
    ensures lists { (q : Query) (db : Database) (env : List Row) (rows : Bag) (x : Row)
        → meaning (Prov q) db env ≡ Good rows → InBag x rows → witnesses (Prov q) db env x ≡ [] ∷ [] }
{}

/// Over a sound catalog each row of a query that breaks no rule has as many values as its header has names.
pub fn answers_are_as_wide_as_their_headers()
    ensures { (c : Contents) (statement : Statement) (answer : Answer) (bag : Bag) (t : Row)
        → IsSound c → RegularStatement statement → AsksFor c statement answer
        → meaning answer.query (rows_in c.rows) [] ≡ Good bag → InBag t bag → length t ≡ length answer.names }
{}

/// A statement that is refused leaves what the catalog holds: where its turn is refused, whatever a call answers that carries it
/// out; where such a call answers a refusal, whatever the turn; and so where the statement begins a file.
pub fn a_refused_statement_changes_nothing()
    ensures refused { (cause : Cause) (old new : Contents) (answer : Result (List ℕ) StepRefusal)
        → IsTurn (Refused cause) old new answer → new ≡ old }
    ensures refusal { (turn : Turn) (old new : Contents) (refusal : StepRefusal)
        → IsTurn turn old new (Err refusal) → new ≡ old }
    ensures over_files { (files : Files) (asks : Asked) (old new : Contents) (refusal : StepRefusal)
        → TakesTurn (can_be files) asks old new (Err refusal) → new ≡ old }
{}

/// A query that breaks no rule leaves it too, whatever such a call answers.
pub fn a_query_changes_nothing()
    ensures { (files : Files) (c new : Contents) (statement : Statement) (answer : Answer)
        (text : Result (List ℕ) StepRefusal)
        → AsksFor c statement answer → TakesTurn (can_be files) (asked c statement) c new text → new ≡ c }
{}

/// An IMPACT that breaks no rule. Where its query meets no fault, nor its condition on a row of the table, if the query reads that,
/// it stands with the one text that lists, once each, the rows of the query that vanish where the rows of the table that meet the
/// condition are deleted, in the printed order, and nothing else; and the catalog is as before. Else it is refused with faults of
/// which each is one that the query meets or, where the query reads the table, the condition on one of its rows.
pub fn an_impact_answers_the_rows_that_vanish()
    ensures good { (c : Contents) (statement : Statement)
        (name : List ℕ) (condition : Option Expr) (answer : Answer) (bag : Bag)
        → AsksImpact c statement name condition answer
        → rows_before (identity_of c name) condition answer.query (rows_in c.rows) ≡ Good bag
        → (text : List ℕ) × ListsLost answer (identity_of c name) condition (rows_in c.rows) text
        × (asked c statement ≡ Settled (Accepted text c)) }
    ensures bad { (c : Contents) (statement : Statement)
        (name : List ℕ) (condition : Option Expr) (answer : Answer) (faults : Faults)
        → AsksImpact c statement name condition answer
        → rows_before (identity_of c name) condition answer.query (rows_in c.rows) ≡ Bad faults
        → asked c statement ≡ Settled (Refused (Meets faults statement.at)) }
    ensures met { (query : Query) (id : ℕ) (condition : Option Expr) (db : Database)
        (fault : RunFault) (faults : Faults)
        → rows_before id condition query db ≡ Bad faults → has faults fault ≡ true
        → MeetsLost query id condition db fault }
    ensures one_text { (answer : Answer) (id : ℕ) (condition : Option Expr) (db : Database)
        (text other : List ℕ)
        → ListsLost answer id condition db text → ListsLost answer id condition db other → text ≡ other }
{}

/// An EXPLAIN that breaks no rule: a text that answers it explains what its query is resolved to, and nothing but want of memory
/// refuses it; and the catalog is as before.
pub fn an_explanation_means_what_its_query_means()
    ensures text { (files : Files) (c new : Contents) (statement : Statement) (answer : Answer)
        → AsksToExplain c statement answer → (text : List ℕ)
        → TakesTurn (can_be files) (asked c statement) c new (Ok text) → Explains c answer text × (new ≡ c) }
    ensures refused { (files : Files) (c new : Contents) (statement : Statement) (answer : Answer)
        → AsksToExplain c statement answer → (refusal : StepRefusal)
        → TakesTurn (can_be files) (asked c statement) c new (Err refusal)
        → (refusal ≡ OutOfMemory) × (new ≡ c) }
{}
