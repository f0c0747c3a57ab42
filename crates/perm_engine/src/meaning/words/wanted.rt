use perm_values::Chars;

/// What the words of a command line ask for.
#[derive(Drop)]
pub enum Wanted {
    /// The script in the file of this name.
    Script(Chars),
    /// The script that is made from this number, from 1 to 100,000.
    Generated(u32),
    /// Nothing that can be run.
    Misworded,
}
