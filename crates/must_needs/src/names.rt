//! The names of what calls wait for.

/// What a call waits for, before it is known what becomes of it.
#[derive(Clone, Copy)]
pub enum Name {
    /// What is there already.
    Nothing,
    /// What an operation of the rank needs; operations are numbered in their order, from 0.
    Operation(u64),
    /// The wave of a collective call, by the number of the call.
    Wave(u32),
}

/// The alternatives of a call, by names.
#[derive(Drop)]
pub enum Ways {
    /// All of these; without any the call doesn't wait.
    All(Vec<Name>),
    /// One of these that can ever be met; without any the call doesn't wait.
    Any(Vec<Name>),
}
