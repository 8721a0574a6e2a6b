// What a kind of values is.
ghost use Rattle.std.specs.Prelude.{◌≡◌, ℕ, ◌+◌, ◌*◌, ◌^◌, ◌≤◌, List, [], Ok, Decides, Result, ◌≢◌};
ghost use denote.Param.{layout};
ghost use prog.Memory.{align, size};
ghost use Rattle.kinds.specs.Readings.{Reading};
ghost use Rattle.kinds.specs.declared.refusal.Fault.{Fault};

use crate::refusal::Fault;

// A kind gives every value a class, and reads values from bytes.
pub trait Kind {
    type Value: Copy;

    // The kind's number in the head of a journal.
    const NUMBER: u8;

    // The most bytes that one value takes.
    const LONGEST: usize;

    // NUMBER, in clauses.
    ghost NUMBER: { ℕ };

    // LONGEST, in clauses.
    ghost LONGEST: { ℕ };

    // The class of a value: values of one class are the same.
    ghost class: { Self.Value → List ℕ };

    // The value that stands where none was given.
    ghost nothing: { Self.Value };

    // What the bytes decide of a reading: a value and how many bytes it takes, or the fault.
    ghost reads: { List ℕ → Result (Self.Value × ℕ) Fault };

    // Whether two values have one class.
    fn same(a: &Self::Value, b: &Self::Value) -> bool
        ensures { Decides result (class a.now ≡ class b.now) };

    // The value that stands where none was given.
    fn nothing() -> Self::Value
        ensures { result ≡ nothing };

    // Reads the value at the front of some bytes, and tells how many bytes it takes.
    fn read(bytes: &[u8]) -> Result<(Self::Value, usize), Fault>
        ensures value { result ≡ reads bytes.now }
        ensures within { Reading LONGEST bytes.now result };

    // Nothing has the empty class.
    ghost empty: { class nothing ≡ [] };

    // Nothing is the same only as itself.
    ghost lone: { (v : Self.Value) → class v ≡ [] → v ≡ nothing };

    // Nothing is never read.
    ghost unread: { (bytes : List ℕ) (k : ℕ) → reads bytes ≢ Ok (nothing, k) };

    // A reading takes at least one byte, and no more than the longest form and the bytes have; it refuses with 1, 2 or 6.
    ghost bounded: { (bytes : List ℕ) → Reading LONGEST bytes (reads bytes) };

    // The longest form is no longer than a journal.
    ghost modest: { LONGEST ≤ 65536 };

    // A handful of values has a place in memory.
    ghost small: { (size (layout Self.Value.row) ≤ 2 ^ 32) × (align (layout Self.Value.row) ≤ 2 ^ 32) };
}

// The most bytes that a record takes: three of an id, one of a count, and five values.
pub fn record_bound<K: Kind>() -> usize
    ensures { result ≡ 4 + 5 * K.Kind.LONGEST }
{
    4 + 5 * K::LONGEST
}
