/// From the class of a module to that of one of its fills.
#[derive(Debug, Drop, Clone, Copy)]
pub struct Edge {
    pub from: usize,
    pub to: usize,
}
