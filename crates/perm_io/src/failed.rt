/// A call on files or on an output failed.
#[derive(Clone, Copy, PartialEq, Eq)]
pub struct Failed;
