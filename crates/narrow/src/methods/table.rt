// Filling a table of methods, and looking one up.
ghost use Rattle.std.specs.Prelude.{◌≡◌, take};
ghost use Rattle.narrow.specs.Narrowing.{among, listed};

use crate::methods::{MOST_METHODS, Methods};

impl Methods {
    // The table of some methods, of which the first 32 count.
    #[tactic(auto, using(std::proofs::lemmas::List::take_at, std::proofs::lemmas::List::take_min))]
    pub fn new(list: &[u16]) -> Methods
        ensures { listed result ≡ take 32 list.now }
    {
        let first = &list[..MOST_METHODS.min(list.len())];
        let mut numbers = [0; MOST_METHODS];
        numbers[..first.len()].copy_from_slice(first);
        Methods {
            numbers,
            count: first.len(),
        }
    }

    // Whether a method is in the table.
    pub fn has(&self, method: u32) -> bool
        ensures { result ≡ among method (listed self.now) }
    {
        let numbers = &self.numbers[..self.count];
        numbers.iter().any(|n| u32::from(*n) == method)
    }
}
