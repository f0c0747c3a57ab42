//! Statements over sessions (`perm_engine`): those that draw the last numbers, a COPY whose file fails in its middle, and what the last run
//! of a query answers over other rows.
ghost use Rattle.std.specs.Prelude.{IfOk, IfSome};
ghost use Rattle.sql_lexer.specs.Lexes.{Lexes};
ghost use Rattle.sql_tree.specs.Regular.{Each, RegularStatement};

use bag_algebra::{Env, Query, Tables, is_plain};
use csv_tables::DataError;
use name_meaning::{Break, Rule};
use name_statements::{let_catalog_go, let_statements_go};
use null_logic::RunFault;
use perm_catalog::{Catalog, CatalogRefusal};
use perm_engine::Session;
use perm_io::{MemoryFiles, NamedFile};
use perm_values::{Bytes, Chars, Copyable, List, NoMemory, Row, Rows, Value};
use row_executor::{ExecError, run_hashed};
use sql_lexer::{Token, tokens};
use sql_parser::{a_spelled_script_is_regular, script};
use sql_tree::Statement;
use statement_meaning::StepRefusal;
use std::alloc::Global;
use std::test::Fail;
use stored_provenance::catalogs_stay_sound;

fn last_of(statements: List<Statement>) -> Option<Statement>
    requires { Each RegularStatement statements }
    ensures { IfSome result (λ last. RegularStatement last) }
{
    let mut statements = statements;
    let last = statements.pop();
    let_statements_go(statements.into_vec().into_iter());
    last
}

fn spelled(alloc: Global, found: &List<Token<'_>>, bytes: &[u8]) -> Option<Statement>
    requires { Lexes bytes.now found.now }
    ensures { IfSome result (λ last. RegularStatement last) }
{
    a_spelled_script_is_regular();
    match script(alloc, found, bytes.len()) {
        Ok(tree) => last_of(tree.statements),
        Err(_) => None,
    }
}

/// The last statement that the text spells, if it spells any and memory isn't wanting.
fn statement(alloc: Global, text: &str) -> Option<Statement>
    ensures { IfSome result (λ last. RegularStatement last) }
{
    match tokens(alloc, text.as_bytes()) {
        Ok(found) => spelled(alloc, &found, text.as_bytes()),
        Err(_) => None,
    }
}

/// What the session answers to the statement.
fn stepped(
    alloc: Global,
    session: &mut Session,
    files: &mut MemoryFiles,
    text: &str,
) -> Result<Bytes, StepRefusal> {
    match statement(alloc, text) {
        Some(statement) => session.step(statement, files),
        None => Err(StepRefusal::NoMemory),
    }
}

/// A statement, and its text or why it is refused.
type Turn<'a> = (&'a str, Result<&'a str, StepRefusal>);

fn is_told(told: Result<Bytes, StepRefusal>, want: Result<&str, StepRefusal>) -> bool {
    match told {
        Ok(text) => match want {
            Ok(want) => text.as_slice() == want.as_bytes(),
            Err(_) => false,
        },
        Err(refusal) => want == Err(refusal),
    }
}

/// Whether the session takes all these turns.
fn takes(
    alloc: Global,
    session: &mut Session,
    files: &mut MemoryFiles,
    turns: &[Turn<'_>],
) -> bool {
    for (text, want) in turns {
        if !is_told(stepped(alloc, session, files, text), *want) {
            return false;
        }
    }
    true
}

fn no_files(alloc: Global) -> Result<MemoryFiles, NoMemory> {
    MemoryFiles::new(alloc, List::new(alloc), &[])
}

const SPENT: StepRefusal = StepRefusal::Break(Break {
    rule: Rule::NumbersSpent,
    at: 0,
});

/// Whether a session that draws this number first takes the turns.
fn takes_from(alloc: Global, next: u64, turns: &[Turn<'_>]) -> Result<bool, NoMemory> {
    catalogs_stay_sound();
    let mut files = no_files(alloc)?;
    let catalog = Catalog::new(alloc, next);
    let mut session = Session::with(alloc, catalog);
    let taken = takes(alloc, &mut session, &mut files, turns);
    drop(session);
    Ok(taken)
}

#[test]
fn the_last_number_is_never_drawn(rt: HostRuntime) -> Result<(), Fail> {
    let alloc = rt.alloc();
    let divided = StepRefusal::Run {
        fault: RunFault::DivideByZero,
        at: 0,
    };
    let last_but_one: [Turn<'_>; 6] = [
        ("CREATE TABLE r (a INTEGER);", Ok("CREATE TABLE\n")),
        ("INSERT INTO r VALUES (1);", Err(SPENT)),
        ("INSERT INTO r VALUES (1 / 0);", Err(divided)),
        ("SELECT a FROM r;", Ok("\"a\"\n(0 rows)\n")),
        ("CREATE VIEW v AS SELECT a FROM r;", Ok("CREATE VIEW\n")),
        ("CREATE TABLE s (c INTEGER);", Err(SPENT)),
    ];
    assert!(rt; takes_from(alloc, u64::MAX - 1, &last_but_one)?);
    let last: [Turn<'_>; 2] = [
        ("CREATE TABLE r (a INTEGER);", Err(SPENT)),
        ("SELECT 1 AS n;", Ok("\"n\"\n1\n(1 rows)\n")),
    ];
    assert!(rt; takes_from(alloc, u64::MAX, &last)?);
    Ok(())
}

/// What a catalog that draws this number first answers to a new table, and whether it holds it then.
fn created(alloc: Global, next: u64) -> Result<(Result<(), CatalogRefusal>, bool), NoMemory> {
    let name = Chars::from_text(alloc, "r")?;
    let mut catalog = Catalog::new(alloc, next);
    let made = catalog.create(alloc, &name, List::new(alloc), List::new(alloc), None);
    let holds = catalog.table(&name).is_some();
    let_catalog_go(catalog);
    Ok((made, holds))
}

#[test]
fn a_spent_catalog_creates_nothing(rt: HostRuntime) -> Result<(), Fail> {
    let spent = Err(CatalogRefusal::VersionsSpent);
    assert!(rt; created(rt.alloc(), u64::MAX)? == (spent, false));
    assert!(rt; created(rt.alloc(), u64::MAX - 1)? == (Ok(()), true));
    Ok(())
}

/// How many tables the entry of the table `k` remembers, by its copy; 0 where there is no such table or it stores no provenance.
fn remembered(alloc: Global, catalog: &Catalog) -> Result<usize, NoMemory> {
    let name = Chars::from_text(alloc, "k")?;
    let Some(entry) = catalog.table(&name) else {
        return Ok(0);
    };
    let copy = entry.copy(alloc)?;
    let count = match &copy.stored {
        Some(stored) => stored.kept.len(),
        None => 0,
    };
    drop(copy);
    Ok(count)
}

#[test]
fn an_entry_is_copied_with_what_it_remembers(rt: HostRuntime) -> Result<(), Fail> {
    let alloc = rt.alloc();
    let turns: [Turn<'_>; 2] = [
        ("CREATE TABLE r (a INTEGER);", Ok("CREATE TABLE\n")),
        (
            "CREATE TABLE k AS SELECT PROVENANCE a FROM r;",
            Ok("CREATE TABLE AS 0\n"),
        ),
    ];
    let mut files = no_files(alloc)?;
    let mut session = Session::new(alloc);
    let taken = takes(alloc, &mut session, &mut files, &turns);
    let count = remembered(alloc, session.catalog());
    drop(session);
    assert!(rt; taken);
    assert_eq!(rt; count?, 1);
    Ok(())
}

fn file(alloc: Global, name: &str, content: &[u8]) -> Result<NamedFile, NoMemory> {
    let mut bytes = Bytes::new(alloc);
    bytes.add(content)?;
    let name = Chars::from_text(alloc, name)?;
    Ok(NamedFile { name, bytes })
}

/// The file `c` of so many records, and `d`, whose third record is too wide. The third call on the files fails.
fn damaged_files(alloc: Global, records: usize) -> Result<MemoryFiles, Fail> {
    let lines = "1,x\n".repeat(alloc, records)?;
    let mut held: List<NamedFile> = List::new(alloc);
    held.push(file(alloc, "c", lines.as_bytes())?)?;
    held.push(file(alloc, "d", b"1,x\n2,y\n3,z,w\n")?)?;
    Ok(MemoryFiles::new(alloc, held, &[3])?)
}

#[test]
fn a_damaged_file_leaves_the_table(rt: HostRuntime) -> Result<(), Fail> {
    let alloc = rt.alloc();
    // A file is read by pieces of 4,096 bytes: the call that fails comes behind the first of them.
    let mut files = damaged_files(alloc, 1100)?;
    let turns: [Turn<'_>; 7] = [
        ("CREATE TABLE r (a INTEGER, b TEXT);", Ok("CREATE TABLE\n")),
        ("INSERT INTO r VALUES (7, 'q');", Ok("INSERT 1\n")),
        ("COPY r FROM 'c';", Err(StepRefusal::ReadFault)),
        (
            "COPY r FROM 'd';",
            Err(StepRefusal::Unfit(DataError::Width { row: 3 })),
        ),
        (
            "SELECT a, b FROM r;",
            Ok("\"a\",\"b\"\n7,\"q\"\n(1 rows)\n"),
        ),
        ("COPY r FROM 'c';", Ok("COPY 1100\n")),
        ("SELECT COUNT(*) FROM r;", Ok("\"count\"\n1101\n(1 rows)\n")),
    ];
    let mut session = Session::new(alloc);
    let taken = takes(alloc, &mut session, &mut files, &turns);
    drop(session);
    assert!(rt; taken);
    Ok(())
}

fn integer_row(alloc: Global, numbers: &[i64]) -> Result<Row, NoMemory> {
    let mut row = Row::new(alloc);
    for number in numbers {
        row.push(Value::Integer(*number))?;
    }
    Ok(row)
}

/// The rows of the query over the table of that identity, which has this row alone.
fn answered_over(
    alloc: Global,
    query: &Query,
    id: u64,
    numbers: &[i64],
) -> Result<Rows, ExecError> {
    if !is_plain(query) {
        return Err(ExecError::NoMemory);
    }
    let row = integer_row(alloc, numbers)?;
    let mut rows = List::new(alloc);
    rows.push(row)?;
    let mut tables = Tables::new(alloc);
    tables.put(id, rows)?;
    run_hashed(alloc, query, &tables, &Env::new(alloc))
}

/// What the last run's query answers over the first table of another row.
fn last_run_over(alloc: Global, session: &Session, numbers: &[i64]) -> Result<Rows, ExecError> {
    match session.runner().last() {
        Some(ran) => answered_over(alloc, &ran.query, 1, numbers),
        None => Err(ExecError::NoMemory),
    }
}

/// Whether the query of the last run answers this one row over the table of that row, behind a query that was answered over another.
fn asks_anew(alloc: Global) -> Result<bool, ExecError> {
    let turns: [Turn<'_>; 3] = [
        ("CREATE TABLE r (a INTEGER);", Ok("CREATE TABLE\n")),
        ("INSERT INTO r VALUES (1);", Ok("INSERT 1\n")),
        (
            "SELECT PROVENANCE a + 1 AS n FROM r;",
            Ok("\"n\",\"prov_r_a\"\n2,1\n(1 rows)\n"),
        ),
    ];
    let wanted = integer_row(alloc, &[10, 9])?;
    let mut files = no_files(alloc)?;
    let mut session = Session::new(alloc);
    let taken = takes(alloc, &mut session, &mut files, &turns);
    let rows = last_run_over(alloc, &session, &[9]);
    drop(session);
    let rows = rows?;
    Ok(taken && rows.len() == 1 && *rows.get(0) == wanted)
}

#[test]
fn the_last_run_asks_for_the_rows_of_its_tables(rt: HostRuntime) -> Result<(), Fail> {
    assert!(rt; asks_anew(rt.alloc()) == Ok(true));
    Ok(())
}
