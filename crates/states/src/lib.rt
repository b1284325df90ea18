// Sets of states as masks of 64 bits.
#![tactic(auto)]

ghost use Rattle.std.specs.Prelude.{◌≡◌};

// A state's number: 0 to 63.
pub type State = u8;

// A set of states: bit q, worth 2^q, says that state q belongs.
pub type StateSet = u64;
