/// Two numbers of a table whose classes are to be one.
#[derive(Debug, Drop, Clone, Copy)]
pub struct NumberPair {
    pub one: usize,
    pub other: usize,
}
