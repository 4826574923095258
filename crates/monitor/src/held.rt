// What a watch or a summary holds.
use crate::count::Count;
use crate::head::Head;
use scale::order::Scale;
use std::marker::PhantomData;

// A watch or a summary: the head of its rule, how many letters it has read, and in the caller's buffer the rows of the log's
// table that it keeps (K says which).
#[derive(Drop)]
pub struct Held<'b, S: Scale, K> {
    pub head: Head,
    pub count: Count,
    pub table: &'b mut [S],
    pub kept: PhantomData<K>,
}
