// Kind 1, numbers: 0 to 2^63 - 1, and each is a class of its own.
ghost use Rattle.std.specs.Prelude.{◌≡◌, None};
ghost use Rattle.kinds.specs.Numbers.{number_class, number_value, groups_read};
ghost use Rattle.kinds.specs.Groups.{within, within_given};
ghost use Rattle.std.proofs.Common.{rules};

use crate::kind::Kind;
use crate::number::read_number;
use crate::refusal::Fault;

// The kind of numbers: a value is a number, or None for nothing.
pub struct Numbers;

impl Kind for Numbers {
    type Value = Option<u64>;

    const NUMBER: u8 = 1;

    const LONGEST: usize = 9;

    ghost NUMBER = { 1 };

    ghost LONGEST = { 9 };

    ghost class = { number_class };

    ghost nothing = { None };

    ghost reads = { number_value };

    ghost empty = { Prim.search rules };

    ghost lone = { Prim.search rules };

    ghost unread = { Prim.search rules };

    ghost bounded = { λ bytes. within_given bytes (groups_read 8 bytes) (within 8 bytes) };

    ghost modest = { Prim.search rules };

    ghost small = { Prim.search rules };

    fn same(a: &Option<u64>, b: &Option<u64>) -> bool {
        a == b
    }

    fn nothing() -> Option<u64> {
        None
    }

    fn read(bytes: &[u8]) -> Result<(Option<u64>, usize), Fault> {
        let (n, count) = read_number(bytes)?;
        Ok((Some(n), count))
    }
}
