// Numbers in bytes: groups of seven bits, lowest first, the top bit set on every byte but the last.
ghost use Rattle.std.specs.Prelude.{◌≡◌, ℕ, ◌+◌, ◌*◌, ◌%◌, ◌^◌, ◌<◌, ◌≤◌, Result};
ghost use Rattle.kinds.specs.Numbers.{Numbered, groups_read, number_read};
ghost use Rattle.kinds.specs.Readings.{Reading};
ghost use Rattle.kinds.specs.declared.refusal.Fault.{Fault};

use crate::refusal::{Fault, Layer, Reason};

// The bit that every byte of a number but its last has.
const MORE: u8 = 0x80;

const CUT: Fault = Fault {
    layer: Layer::Number,
    reason: Reason::Cut,
};

const OVERLONG: Fault = Fault {
    layer: Layer::Number,
    reason: Reason::Overlong,
};

// A group in front of the number that the groups after it make.
fn joined(first: u8, high: u64) -> u64
    requires { high < 2 ^ 56 }
    ensures { result ≡ first % 128 + 128 * high }
{
    u64::from(first % MORE) + 128 * high
}

// Reads a group and at most `more` after it, and tells how many came.
#[tactic(auto, using(crate::specs::Groups::read_end, crate::specs::Groups::read_last, crate::specs::Groups::read_most, crate::specs::Groups::read_more, crate::specs::Groups::high_small, crate::specs::Groups::bytes_after))]
fn read_groups(bytes: &[u8], more: u8) -> Result<(u64, usize), Fault>
    requires { more ≤ 8 }
    ensures { result ≡ groups_read more bytes.now }
{
    match bytes {
        [] => Err(CUT),
        [first, ..] if *first < MORE => Ok((u64::from(*first), 1)),
        [_, ..] if more == 0 => Err(OVERLONG),
        [first, rest @ ..] => {
            let (high, count) = read_groups(rest, more - 1)?;
            if high == 0 {
                return Err(OVERLONG);
            }
            Ok((joined(*first, high), count + 1))
        }
    }
}

// Reads the number at the front of some bytes, and tells how many bytes it takes.
#[tactic(auto, using(crate::specs::Groups::numbered, crate::specs::Groups::only, crate::specs::Groups::within))]
pub fn read_number(bytes: &[u8]) -> Result<(u64, usize), Fault>
    ensures value { result ≡ number_read bytes.now }
    ensures meaning { Numbered bytes.now result }
    ensures only { (s : Result (ℕ × ℕ) Fault) → Numbered bytes.now s → s ≡ result }
    ensures within { Reading 9 bytes.now result }
{
    read_groups(bytes, 8)
}
