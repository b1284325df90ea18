// A table: the goal as it was given, and the entries that settling earned.
ghost use Rattle.std.specs.Prelude.{◌≤◌, vec_len, vec_capacity};

use forcing::{Earned, Entry};
use states::StateSet;

// `marks` are the states with an end mark. There is room for 128 given entries and 1,024 earned ones.
// The two lists are a `Vec` each with room of its own, and not an `ArrayVec`, which would move 26 KiB with each table.
// `settled` stands beside the earned entries, and not an `Option` round them: their room is taken once, so that settling is to ask for no memory, and an open table keeps it.
#[derive(Drop)]
pub struct Table {
    given: Vec<Entry>,
    earned: Vec<Earned>,
    marks: StateSet,
    settled: bool,
    ghost few_given: { vec_len given ≤ 128 },
    ghost room_given: { 128 ≤ vec_capacity given },
    ghost few_earned: { vec_len earned ≤ 1024 },
    ghost room_earned: { 1024 ≤ vec_capacity earned },
}
