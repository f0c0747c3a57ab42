//! That the text of a query is read as what it was printed for.
//! Each law is the contract of a function that does nothing.
ghost use Rattle.std.specs.Prelude.{◌≡◌, ℕ, List, ◌∷◌, [], length};
ghost use Rattle.perm_values.specs.Rows.{KeysWithin};
ghost use Rattle.perm_values.specs.declared.key.Key.{Key};
ghost use Rattle.perm_values.specs.declared.kind.Kind.{Kind};
ghost use Rattle.bag_algebra.specs.Kinds.{kinds_of};
ghost use Rattle.bag_algebra.specs.TablesRead.{EachTable};
ghost use Rattle.bag_algebra.specs.WellFormed.{WellFormed};
ghost use Rattle.bag_algebra.specs.declared.query.Query.{Query};
ghost use Rattle.perm_catalog.specs.Contents.{Contents};
ghost use Rattle.sql_tree.specs.declared.query.QueryTree.{QueryTree};
ghost use Rattle.tree_texts.specs.Trees.{IsQuery};
ghost use Rattle.query_texts.specs.declared.clauses.tables.TableNames.{TableNames};
ghost use Rattle.query_texts.specs.forms.ShownQueries.{shown_answer};
ghost use Rattle.sql_printer.specs.rows.Printed.{printed_answer};
ghost use Rattle.sql_printer.specs.rows.Writable.{WritableQuery};
ghost use Rattle.statement_meaning.specs.explains.Explains.{MeansTheSame, read_as};
ghost use Rattle.sql_printer.specs.answers.ReadAs.{Few, IsNamed, IsReadAs, Narrow, source_in};

/// Over a catalog that has its tables under their names, the tree of an answer's form breaks no
/// rule of names and kinds, and is read as what is printed of the answer's query, with the names
/// and keys of the answer.
pub fn a_printed_answer_is_read_back()
    ensures { (c : Contents) (tables : List TableNames) (q : Query) (kind : Kind) (more : List Kind)
        → kinds_of q ≡ kind ∷ more → WellFormed [] q → WritableQuery q
        → EachTable (IsNamed c tables) q → Narrow q → Few (kinds_of q)
        → (names : List (List ℕ)) (keys : List Key) → length names ≡ length (kinds_of q)
        → KeysWithin (length names) keys → (tree : QueryTree)
        → IsQuery (shown_answer tables q names keys) tree → IsReadAs c tree (record {
          query = printed_answer (source_in c tables) q;
          names = names;
          keys = keys;
        }) }
{}

/// And so it means what the answer means, on every database that gives the catalog's tables rows.
pub fn a_printed_answer_means_the_answer()
    ensures { (c : Contents) (tables : List TableNames) (q : Query) (kind : Kind) (more : List Kind)
        → kinds_of q ≡ kind ∷ more → WellFormed [] q → WritableQuery q
        → EachTable (IsNamed c tables) q → Narrow q → Few (kinds_of q)
        → (names : List (List ℕ)) (keys : List Key) → length names ≡ length (kinds_of q)
        → KeysWithin (length names) keys → (tree : QueryTree)
        → IsQuery (shown_answer tables q names keys) tree
        → MeansTheSame c (record { query = q; names = names; keys = keys }) (read_as c tree) }
{}
