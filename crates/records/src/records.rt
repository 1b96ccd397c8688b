use super::shape::Shape;
use std::marker::PhantomData;

/// The records of a file whose bytes are held for reading. `K` is the kind of its records.
#[derive(Drop)]
pub struct Records<'a, K> {
    pub(crate) file: &'a [u8],
    pub(crate) shape: Shape,
    pub(crate) kind: PhantomData<K>,
}
