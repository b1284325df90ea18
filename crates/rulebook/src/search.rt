// The search for the first record that agrees with a given one, over any kind of record with a stated sameness.
ghost use Rattle.std.specs.Prelude.{◌≡◌, Bool, nat_eq};
ghost use Rattle.rulebook.specs.Search.{first_of, First};

use crate::told::Key;

// A kind of record of which any two agree or do not.
// It is not `PartialEq`: that would ask each kind of record for more, that agreeing is symmetric and transitive, which no search needs. Each kind states its own sameness, so each has its own `impl`.
pub trait Same {
    // Whether two records agree.
    ghost same: { Self → Self → Bool };

    // Decides it.
    fn agrees(&self, other: &Self) -> bool
        ensures { result ≡ same self.now other.now };
}

// Keys agree where they are the same number.
impl Same for Key {
    ghost same = { nat_eq };

    fn agrees(&self, other: &Key) -> bool {
        *self == *other
    }
}

// The lowest place of `records`, counted from 0, whose record agrees with `wanted`, or none where none agrees.
pub fn first_place<T: Same>(records: &[T], wanted: &T) -> Option<usize>
    ensures value { result ≡ first_of (λ x. T.same x wanted.now) records.now }
    ensures first { First (λ x. T.same x wanted.now) records.now result }
{
    records.iter().position(|record| record.agrees(wanted))
}
