pub(crate) mod first;
mod text;

// Where a tree begins and ends: the tasks of its first and of its last method in record order.
// An enum, since an Option of an Option of a pair would not say which None is no tree and which no method.
#[derive(Clone, Copy)]
pub enum Ends {
    NoTree,
    NoMethod,
    Methods { first: usize, last: usize },
}
