//! The grammar of the SQL as data (after ISO/IEC 9075-2), what it means to read by it, and the tokens that are still to be read.

mod clauses;
mod cursor;
mod laws;
mod lists;
mod names;
mod nest;
mod query;
mod repeats;
mod sort;
mod unread;

pub use cursor::Cursor;
pub use laws::reserved_words_are_the_lexers;
pub use lists::{list_from, list_of};
pub use names::{name_of, reference};
pub use nest::{Nest, node};
pub use repeats::all_items;
pub use sort::{NAMES, Sort, is_among, same_sort, sort_of};
pub use unread::Unread;
