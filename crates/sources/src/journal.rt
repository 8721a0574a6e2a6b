// A journal, as its reader holds it.
use crate::place::Place;
use std::marker::PhantomData;

pub mod read;

// A reader of the journal that it was handed, of which it copies nothing.
#[derive(Drop)]
pub struct Journal<'a, K> {
    place: Place<'a>,
    kind: PhantomData<K>,
}
