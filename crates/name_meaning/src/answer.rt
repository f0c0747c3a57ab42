use crate::rule::Rule;
use bag_algebra::{Answer, Expr};
use perm_catalog::{Column, ViewEntry};
use perm_values::{Chars, Kind, List};

/// A rule that a script or a statement breaks, and the offset in the script where it is broken.
#[derive(Clone, Copy, PartialEq, Eq)]
pub struct Break {
    pub rule: Rule,
    pub at: usize,
}

/// A statement with its names looked up and its kinds settled.
#[derive(Drop)]
pub enum Resolved {
    CreateTable {
        name: Chars,
        columns: List<Column>,
    },
    /// `places`: those of the provenance columns, present exactly where the query asks for provenance.
    CreateTableAs {
        name: Chars,
        columns: List<Column>,
        answer: Answer,
        places: Option<List<usize>>,
    },
    CreateView {
        name: Chars,
        entry: ViewEntry,
    },
    /// `header`: whether the first record is none of the rows; `null_field`: the field that stands for NULL.
    Copy {
        name: Chars,
        kinds: List<Kind>,
        file: Chars,
        null_field: Chars,
        header: bool,
    },
    Insert {
        name: Chars,
        rows: List<List<Expr>>,
    },
    Delete {
        name: Chars,
        condition: Option<Expr>,
    },
    DropTable {
        name: Chars,
    },
    DropView {
        name: Chars,
    },
    Select {
        answer: Answer,
    },
    Explain {
        answer: Answer,
    },
    ShowFresh {
        name: Chars,
    },
    /// `condition`: which rows of the table would be deleted, all of them where there is none; `answer`: the query of which rows
    /// may vanish.
    Impact {
        name: Chars,
        condition: Option<Expr>,
        answer: Answer,
    },
}
