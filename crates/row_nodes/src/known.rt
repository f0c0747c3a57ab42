//! What is known of a query from row to row: of that of a sublink, or of the right side of a dependent join.
ghost use Rattle.std.specs.Prelude.{◌≡◌, ◌∷◌, [], false, IsTrue, IfOk, OnOk, OnErr, Bool, List as ListOf};
ghost use Rattle.std.specs.Option.{option_copied};
ghost use Rattle.perm_values.specs.Rows.{picked};
ghost use Rattle.bag_algebra.specs.Bags.{Bag, Row as SeenRow};
ghost use Rattle.bag_algebra.specs.FaultFree.{faultless};
ghost use Rattle.bag_algebra.specs.Meaning.{Database};
ghost use Rattle.bag_algebra.specs.Means.{sub_value};
ghost use Rattle.bag_algebra.specs.Outcome.{Good};
ghost use Rattle.bag_algebra.specs.declared.query.Query.{Query as SeenQuery};
ghost use Rattle.row_nodes.specs.memory.Memory.{found};
ghost use Rattle.row_joins.specs.Cells.{AreCells};
ghost use Rattle.row_joins.specs.Hashed.{on_pair, met_rows};
ghost use Rattle.row_nodes.specs.Keeping.{input_depth};
ghost use Rattle.row_nodes.specs.Keyed.{AreKeyed};
ghost use Rattle.row_nodes.specs.Known.{AllKnown, AllNew, AreInputOf, FindsInput, HasRows, IsNew, IsWholeAnswer, Knows, KnowsInput, KnowsOn, answer_at, asks, asks_input, gone_on, gone_on_input, is_nothing, tests_equality, turned};

use crate::input::Input;
use crate::keeping::{Keeping, kept_of};
use crate::memory::Memory;
use bag_algebra::{Env, Expr, Query, SubKind, Sublink};
use indexmap::IndexMap;
use null_logic::{Compare, Truth};
use perm_values::{List, NoMemory, Row, Rows, Value};
use query_facts::nearest_places;
use row_joins::{Cells, ColumnPair, key_table, keyed_columns, rows_around};
use std::alloc::Global;

/// What answers for a query.
#[derive(Drop)]
pub enum KnownAnswer<'a> {
    /// Nothing that is known: it is run.
    Nothing,
    /// Its rows.
    Rows(Input<'a>),
    /// The first columns of these.
    Cells(Cells),
}

/// So many rows are kept of a query however few those are under which it is asked for.
const LEAST_ROOM: usize = 65_536;

/// What is known of a query: what it gave under rows, by the values of the columns that it reads of them, and the rows that a
/// filter in it is over, by those of the first columns.
#[derive(Drop)]
pub struct Known<'a> {
    keeping: Keeping,
    memory: Memory<KnownAnswer<'a>>,
    inputs: Memory<Keyed<'a>>,
    /// What answers where nothing was found.
    nothing: KnownAnswer<'a>,
}

impl<'a> Known<'a> {
    /// Nothing yet; where there is no hashing, nothing for good. Where what is found has more rows in all than these and the
    /// least room, what was found before is forgotten. It fails only for want of memory.
    pub fn of(
        alloc: Global,
        is_hashed: bool,
        query: &Query,
        room: usize,
    ) -> Result<Known<'a>, NoMemory>
        ensures knows { (db : Database) (env : ListOf SeenRow) (in_cells : Bool)
            → IfOk result (Knows db env query.now in_cells) }
        ensures fresh { IfOk result (IsNew is_hashed query.now) }
    {
        let keeping = kept_of(is_hashed, query);
        let read = nearest_places(alloc, query)?;
        let first = List::range(alloc, 0, keeping.input_columns())?;
        let room = room.saturating_add(LEAST_ROOM);
        let memory = Memory::new(alloc, read, room);
        let inputs = Memory::new(alloc, first, room);
        Ok(Known {
            keeping,
            memory,
            inputs,
            nothing: KnownAnswer::Nothing,
        })
    }

    /// What answers for the query under the row at hand.
    pub fn answer(&self) -> &KnownAnswer<'a>
        ensures { result.now ≡ answer_at self.now }
    {
        self.memory.found().unwrap_or(&self.nothing)
    }

    /// Goes on to a row. Where something is to be kept of the query and nothing was found under a row with the same values
    /// in the columns that are read, it is asked for. It fails only for want of memory, and then changes nothing.
    pub fn asks(&mut self, alloc: Global, row: &Row) -> Result<bool, NoMemory>
        ensures knows { (db : Database) (env : ListOf SeenRow) (q : SeenQuery) (in_cells : Bool) →
            Knows db env q in_cells self.old → OnOk result (Knows db env q in_cells self.new) }
        ensures here { OnOk result (picked self.new.memory.places row.now ≡ self.new.memory.key) }
        ensures asks { IfOk result (λ asked. asked ≡ asks self.new) }
        ensures leaves { OnOk result (self.new ≡ gone_on self.old row.now) }
        ensures unchanged { OnErr result (self.new ≡ self.old) }
    {
        self.memory.go_on(alloc, row)?;
        Ok(self.lacks())
    }

    /// Whether something is to be kept and nothing was found for the row at hand.
    fn lacks(&self) -> bool
        ensures { result ≡ asks self.now }
    {
        self.keeping.keeps() && is_nothing(self.answer())
    }

    /// Keeps what was found on the row at hand, which is of so many rows. It fails only for want of memory.
    pub fn keep(
        &mut self,
        alloc: Global,
        rows: usize,
        answer: KnownAnswer<'a>,
    ) -> Result<(), NoMemory>
        ensures knows { (db : Database) (env : ListOf SeenRow) (row : SeenRow) (q : SeenQuery)
            (in_cells : Bool) → Knows db env q in_cells self.old →
            picked self.old.memory.places row ≡ self.old.memory.key →
            IsWholeAnswer db (row ∷ env) q in_cells answer.entry
            → OnOk result (KnowsOn db env row q in_cells self.new) }
        ensures answer { OnOk result (answer_at self.new ≡ answer.entry) }
        ensures keeping { self.new.keeping ≡ self.old.keeping }
    {
        self.memory.keep(alloc, rows.saturating_add(1), answer)
    }

    /// The rows that a filter of the query is over, by a key, where they are known for the row at hand.
    pub fn input(&self) -> Option<&Keyed<'a>>
        ensures { option_copied result ≡ found self.now.inputs }
    {
        self.inputs.found()
    }

    /// How many nodes down that filter stands.
    pub fn input_depth(&self) -> usize
        ensures { result ≡ input_depth self.now.keeping }
    {
        self.keeping.input_depth()
    }

    /// Goes on to a row in the rows that a filter of the query is over. Where these are to be kept, and none were found under a
    /// row with the same values in the first columns, they are asked for. It fails only for want of memory, and then changes
    /// nothing.
    pub fn asks_input(&mut self, alloc: Global, row: &Row) -> Result<bool, NoMemory>
        ensures knows { (db : Database) (env : ListOf SeenRow) (q : SeenQuery) (in_cells : Bool) →
            Knows db env q in_cells self.old → OnOk result (KnowsInput db env row.now q in_cells self.new) }
        ensures asks { IfOk result (λ asked. asked ≡ asks_input self.new) }
        ensures leaves { OnOk result (self.new ≡ gone_on_input self.old row.now) }
        ensures unchanged { OnErr result (self.new ≡ self.old) }
    {
        self.inputs.go_on(alloc, row)?;
        Ok(self.lacks_input())
    }

    /// Whether the rows that a filter is over are to be kept and none were found for the row at hand.
    fn lacks_input(&self) -> bool
        ensures { result ≡ asks_input self.now }
    {
        match self.inputs.found() {
            Some(_) => false,
            None => self.keeping.keeps_input(),
        }
    }

    /// Keeps the rows that a filter is over, if any were found on the row at hand. It fails only for want of memory.
    pub fn keep_input(&mut self, alloc: Global, input: Option<Keyed<'a>>) -> Result<(), NoMemory>
        ensures knows { (db : Database) (env : ListOf SeenRow) (row : SeenRow) (q : SeenQuery)
            (in_cells : Bool) → KnowsInput db env row q in_cells self.old →
            AreInputOf q self.old.keeping db (row ∷ env) input.entry
            → OnOk result (KnowsInput db env row q in_cells self.new) }
        ensures input { OnOk result (FindsInput self.new.inputs input.entry) }
        ensures keeping { self.new.keeping ≡ self.old.keeping }
        ensures memory { self.new.memory ≡ self.old.memory }
    {
        match input {
            Some(keyed) => {
                let rows = keyed.rows.len();
                self.inputs.keep(alloc, rows.saturating_add(1), keyed)
            }
            None => Ok(()),
        }
    }
}

fn is_nothing(answer: &KnownAnswer) -> bool
    ensures { result ≡ is_nothing answer.now }
{
    match answer {
        KnownAnswer::Nothing => true,
        KnownAnswer::Rows(_) => false,
        KnownAnswer::Cells(_) => false,
    }
}

/// What is known of each sublink before a row is looked at: nothing. The room is that of `Known::of`. It fails only for want of
/// memory.
pub fn known_subs<'a>(
    alloc: Global,
    is_hashed: bool,
    subs: &[Sublink],
    room: usize,
) -> Result<Vec<Known<'a>>, NoMemory>
    ensures knows { (db : Database) (env : ListOf SeenRow)
        → IfOk result (λ known. AllKnown db env subs.now known.items) }
    ensures fresh { IfOk result (λ known. AllNew is_hashed subs.now known.items) }
{
    let mut known = Vec::new(alloc);
    for sub in subs {
        known.push(Known::of(alloc, is_hashed, &sub.query, room)?)?;
    }
    Ok(known)
}

/// What answers for a query with these rows: where a value among their first columns is asked for, a table of these. It fails
/// only for want of memory.
pub fn same_rows<'a>(
    alloc: Global,
    in_cells: bool,
    rows: Input<'a>,
) -> Result<KnownAnswer<'a>, NoMemory>
    ensures has { IfOk result (HasRows in_cells rows.entry) }
    ensures some { IfOk result (λ answer. is_nothing answer ≡ false) }
{
    if in_cells {
        return Ok(KnownAnswer::Cells(Cells::new(alloc, rows.as_slice())?));
    }
    Ok(KnownAnswer::Rows(rows))
}

/// Whether the sublink is IN or NOT IN.
pub fn tests_equality(kind: SubKind) -> bool
    ensures { result ≡ tests_equality kind }
{
    match kind {
        SubKind::Any(compare) => matches!(compare, Compare::Equal),
        SubKind::All(compare) => matches!(compare, Compare::NotEqual),
        SubKind::Exists => false,
        SubKind::Scalar => false,
    }
}

/// The value of IN or NOT IN over the first columns of rows. It fails only for want of memory.
pub fn cells_value(
    alloc: Global,
    kind: SubKind,
    cells: &Cells,
    tested: &Value,
) -> Result<Value, NoMemory>
    requires { IsTrue (tests_equality kind) }
    ensures { (rows : Bag) → AreCells cells.now rows
        → IfOk result (λ value. sub_value kind tested.now rows ≡ Good value) }
{
    let truth = cells.equals_some(alloc, tested)?;
    Ok(turned(kind, truth).value())
}

/// The truth for IN, its contrary for NOT IN.
fn turned(kind: SubKind, truth: Truth) -> Truth
    ensures { result ≡ turned kind truth }
{
    match kind {
        SubKind::All(_) => truth.not(),
        SubKind::Any(_) => truth,
        SubKind::Exists => truth,
        SubKind::Scalar => truth,
    }
}

/// Rows by the columns that a filter over them equates with columns of the outer row wherever no guard of it is true.
#[derive(Drop)]
pub struct Keyed<'a> {
    rows: Input<'a>,
    columns: List<ColumnPair>,
    table: IndexMap<Row, List<usize>>,
}

impl<'a> Keyed<'a> {
    /// The rows by the columns that are equal wherever the condition is true and no guard of it is. It fails only for
    /// want of memory.
    pub fn new(alloc: Global, condition: &Expr, rows: Input<'a>) -> Result<Keyed<'a>, NoMemory>
        ensures { IfOk result (λ keyed. AreKeyed condition.now rows.entry keyed) }
    {
        let columns = keyed_columns(alloc, condition)?;
        let table = key_table(alloc, columns.as_slice(), rows.as_slice())?;
        Ok(Keyed {
            rows,
            columns,
            table,
        })
    }

    /// The rows of which the condition is true where the row is the nearest outer row, in order. It fails only for want
    /// of memory.
    pub fn rows_around(
        &self,
        alloc: Global,
        condition: &Expr,
        row: &Row,
        inner: &Env,
    ) -> Result<Rows, NoMemory>
        requires faultless { IsTrue (faultless condition.now) }
        requires keyed { AreKeyed condition.now self.now.rows self.now }
        ensures { (env : ListOf SeenRow) → inner.now ≡ row.now ∷ env →
            IfOk result (λ found. found ≡ met_rows (on_pair condition.now inner.now) self.now.rows) }
    {
        rows_around(
            alloc,
            condition,
            self.columns.as_slice(),
            &self.table,
            row,
            self.rows.as_slice(),
            inner,
        )
    }
}
