use sql_tree::Nest;

/// The rules of queries, over what reads expressions and inner queries.
#[derive(Clone, Copy)]
pub struct Queries<F, G> {
    pub nest: Nest<F, G>,
}
