// Short lists that stand where they are held, so that what holds them can be copied.
ghost use Rattle.std.specs.Prelude.{⊤, ◌≡◌, ◌^◌, ◌<◌, ◌≤◌, [], ◌∷◌, ◌++◌, length, MatchResult};

use std::alloc::AllocError;
use std::ops::DerefSlice;
use std::slice;

// At most N items, on the first places of an array.
// Kept an array and a count: what holds the list is to be `Copy`, and an `ArrayVec` is not.
pub struct Few<T, const N: usize> {
    places: [T; N],
    count: usize,
    ghost whole: { length places ≡ N },
    ghost fits: { count ≤ N },
}

impl<T: Copy, const N: usize> Few<T, N> {
    ghost use Rattle.tables.specs.Few.{few_items};

    // No items; the filler stands on the free places.
    pub fn new(filler: T) -> Few<T, N>
        ensures { few_items result ≡ [] }
    {
        Few {
            places: [filler; N],
            count: 0,
        }
    }

    // The items in order.
    pub fn as_slice(&self) -> &[T]
        ensures { result.now ≡ few_items self.now }
    {
        &self.places[..self.count]
    }

    // How many there are.
    pub fn len(&self) -> usize
        ensures { result ≡ length (few_items self.now) }
    {
        self.as_slice().len()
    }

    // Adds an item behind the others, or hands it back where no place is free.
    pub fn try_push(&mut self, item: T) -> Result<(), T>
        ensures { MatchResult result (λ _. few_items self.new ≡ few_items self.old ++ item ∷ [])
            (λ back. (back ≡ item) × (length (few_items self.old) ≡ N) × (self.new ≡ self.old)) }
    {
        if self.count == N {
            return Err(item);
        }
        self.push(item);
        Ok(())
    }

    // Adds an item behind the others.
    pub(crate) fn push(&mut self, item: T)
        requires { length (few_items self.old) < N }
        ensures { few_items self.new ≡ few_items self.old ++ item ∷ [] }
    {
        self.places[self.count] = item;
        self.count += 1;
    }
}

// Kept by hand: the checker derives no `Clone` for a generic struct with a ghost field.
impl<T: Copy, const N: usize> Clone for Few<T, N> {
    ghost is_clone = { λ f g. g ≡ f };

    ghost is_infallible = { λ _. ⊤ };

    fn clone(&self) -> Result<Few<T, N>, AllocError> {
        Ok(*self)
    }
}

impl<T: Copy, const N: usize> Copy for Few<T, N> {}

// A short list reads as the slice of its items.
impl<T: Copy, const N: usize> DerefSlice for Few<T, N> {
    ghost use Rattle.tables.specs.Few.{few_items};

    type Elem = T;

    ghost deref_gives = { λ f xs. xs ≡ few_items f };

    fn deref(&self) -> &[T] {
        Few::as_slice(self)
    }
}

// A loop over a short list meets its items in order.
impl<'a, T: Copy, const N: usize> IntoIterator for &'a Few<T, N> {
    ghost use Rattle.std.specs.Iterator.Runs.{EveryRun, ItemsMapTo};
    ghost use Rattle.std.specs.Slice.Iter.{iter_rest, iter_steps};
    ghost use Rattle.tables.specs.Few.{few_items};

    type Item = &'a T;

    type IntoIter = slice::Iter<'a, T>;

    ghost into_iter_gives = { λ v it. (iter_rest it ≡ few_items v.now) × (length (iter_rest it) < 2 ^ 64)
        × EveryRun (iter_steps {A = T}) (λ p. ItemsMapTo p (λ x. x.now) (iter_rest p.from)) };

    fn into_iter(self) -> slice::Iter<'a, T> {
        self.as_slice().iter()
    }
}
