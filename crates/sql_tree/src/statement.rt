use crate::expression::ExprTree;
use crate::name::Name;
use crate::query::QueryTree;
use perm_values::{Chars, Kind, List};

/// The statements of a script; those without a token are left out.
#[derive(Drop)]
pub struct Script {
    pub statements: List<Statement>,
}

/// A statement, with the offset of its first token.
#[derive(Drop)]
pub struct Statement {
    pub at: usize,
    pub body: StatementBody,
}

/// What a statement asks for.
#[derive(Drop)]
pub enum StatementBody {
    CreateTable {
        table: Name,
        columns: List<ColumnDef>,
    },
    CreateTableAs {
        table: Name,
        query: QueryTree,
    },
    CreateView {
        view: Name,
        query: QueryTree,
    },
    /// `header`: whether the first record is none of the rows; `null_field`: the field that stands for NULL.
    Copy {
        table: Name,
        file: Chars,
        header: bool,
        null_field: Chars,
    },
    Insert {
        table: Name,
        rows: List<ValuesRow>,
    },
    Delete {
        table: Name,
        condition: Option<ExprTree>,
    },
    DropTable {
        table: Name,
    },
    DropView {
        view: Name,
    },
    Select {
        query: QueryTree,
    },
    Explain {
        query: QueryTree,
    },
    ShowFresh {
        table: Name,
    },
    /// Which rows of the query would vanish if these rows of the table were deleted.
    Impact {
        table: Name,
        condition: Option<ExprTree>,
        query: QueryTree,
    },
}

/// A column of CREATE TABLE.
#[derive(Drop)]
pub struct ColumnDef {
    pub name: Name,
    pub kind: Kind,
}

/// A row of VALUES.
#[derive(Drop)]
pub struct ValuesRow {
    pub at: usize,
    pub values: List<ExprTree>,
}
