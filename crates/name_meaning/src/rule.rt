ghost use Rattle.std.specs.Prelude.{◌≡◌};
ghost use Rattle.name_meaning.specs.Codes.{code_of};

/// A rule that a script or a statement can break. Which breaks there are, and where, the definitions of scripts and of names say.
#[derive(Clone, Copy, PartialEq, Eq)]
pub enum Rule {
    /// The script is text in UTF-8.
    NotText,
    /// Each character begins a token.
    StrayCharacter,
    /// A text or a quoted name is closed.
    OpenText,
    /// A number has at most 63 bits.
    LongNumber,
    /// The tokens are spelled by the grammar.
    UnexpectedToken,
    /// Parentheses and CASEs nest to a bound.
    DeepNesting,
    /// A table or view is there.
    UnknownRelation,
    /// A column, or an item of FROM, is there.
    UnknownColumn,
    /// A column is one alone.
    AmbiguousColumn,
    /// The name of a new table or view is free.
    TakenName,
    /// A column's name stands once.
    RepeatedColumn,
    /// An item's name stands once in FROM.
    RepeatedItem,
    /// What a view uses isn't dropped.
    UsedByView,
    /// A number is left to draw.
    NumbersSpent,
    /// Kinds fit.
    UnfitKind,
    /// Numbers of columns or values agree.
    UnfitWidth,
    /// Behind GROUP BY a column is grouped.
    UngroupedColumn,
    /// An aggregate stands where there may be one.
    MisplacedAggregate,
    /// A sublink stands where there may be one.
    MisplacedSublink,
    /// PROVENANCE stands where there may be one.
    MisplacedProvenance,
    /// Tables and queries have columns to a bound.
    TooManyColumns,
    /// Queries are as high and as large as a bound allows.
    TooLarge,
    /// The query of IMPACT is monotone.
    NotMonotone,
    /// The form of the statement, and of each join in it, is run.
    UnbuiltForm,
}

impl Rule {
    /// The number of the rule's error code.
    pub fn code(self) -> u8
        ensures { result ≡ code_of self }
    {
        match self {
            Rule::NotText => 1,
            Rule::StrayCharacter => 2,
            Rule::OpenText => 3,
            Rule::LongNumber => 4,
            Rule::UnexpectedToken => 5,
            Rule::DeepNesting => 6,
            Rule::UnknownRelation => 10,
            Rule::UnknownColumn => 11,
            Rule::AmbiguousColumn => 12,
            Rule::TakenName => 13,
            Rule::RepeatedColumn => 14,
            Rule::RepeatedItem => 15,
            Rule::UsedByView => 16,
            Rule::NumbersSpent => 17,
            Rule::UnfitKind => 20,
            Rule::UnfitWidth => 21,
            Rule::UngroupedColumn => 22,
            Rule::MisplacedAggregate => 23,
            Rule::MisplacedSublink => 24,
            Rule::MisplacedProvenance => 25,
            Rule::TooManyColumns => 26,
            Rule::TooLarge => 27,
            Rule::NotMonotone => 28,
            Rule::UnbuiltForm => 29,
        }
    }
}
