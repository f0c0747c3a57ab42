use bag_algebra::Query;

/// Lets the query go, without going down its first inputs by recursion.
pub fn let_go_along(query: Query) {
    let mut rest = query;
    'down: loop {
        match rest.into_first_input() {
            Some(input) => rest = input,
            None => return,
        }
    }
}
