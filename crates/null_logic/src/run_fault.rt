/// What can go wrong while a query runs.
#[derive(Clone, Copy, PartialEq, Eq)]
pub enum RunFault {
    /// A division or remainder by 0 (ISO/IEC 9075-2, SQLSTATE 22012).
    DivideByZero,
    /// A number that doesn't fit 64 bits (SQLSTATE 22003).
    OutOfRange,
    /// A scalar subquery with more than one row (SQLSTATE 21000).
    SeveralRows,
}
