// Places in the book below, in rising order, with room for those of any book.
ghost use Rattle.std.specs.Prelude.{◌≡◌, ◌≤◌, true, List, [], length, IfOk, vec_capacity};
ghost use Rattle.std.specs.List.{slice_get};
ghost use Rattle.rulebook.specs.Book.{Rule, rule_at};
ghost use Rattle.lock.specs.Formed.{picked};
ghost use Rattle.lock.specs.Locked.{free, locked};
ghost use Rattle.lock.specs.Places.{places_of, rises_from, picks, stands_at, free_in};

use rulebook::{Key, RuleBook, first_place};
use std::alloc::{AllocError, Global};

// Seen by its fields and not by a model: the proofs of both layers read from them that the places rise.
#[derive(Drop)]
pub struct Places {
    list: Vec<usize>,
    ghost rises: { rises_from 0 list.items ≡ true },
    ghost room: { 65535 ≤ vec_capacity list },
}

// A book and keys come one by one, as callers are promised.
impl Places {
    // The places of the rules of `book` whose key is not among `keys`.
    #[tactic(auto, using(crate::proofs::Listing::locked_none))]
    pub fn new<B: RuleBook>(heap: Global, book: &B, keys: &[Key]) -> Result<Places, AllocError>
        ensures items { IfOk result (λ s. s.list.items ≡ places_of (free keys.now) (B.meaning book.now).rules) }
        ensures lists { IfOk result (λ s. picked s.list.items (B.meaning book.now) ≡ locked keys.now (B.meaning book.now)) }
        ensures whole { IfOk result (λ s. keys.now ≡ [] → picked s.list.items (B.meaning book.now) ≡ B.meaning book.now) }
    {
        let list = Vec::with_capacity(heap, 65_535)?;
        let mut places = Places { list };
        places.refill(book, keys);
        Ok(places)
    }

    // Takes the places of the rules of `book` whose key is not among `keys` instead.
    #[tactic(auto, using(crate::proofs::Listing::refilled))]
    pub fn refill<B: RuleBook>(&mut self, book: &B, keys: &[Key])
        ensures items { self.new.list.items ≡ places_of (free keys.now) (B.meaning book.now).rules }
        ensures lists { picked self.new.list.items (B.meaning book.now) ≡ locked keys.now (B.meaning book.now) }
    {
        self.list.clear();
        // A loop, since `extend` may ask for memory, and of what the closure of `for_each` changes nothing is known.
        for place in 0..book.rules() {
            if is_free(book, keys, place) {
                self.list.push_reserved(place);
            }
        }
    }

    // How many places there are.
    pub fn len(&self) -> usize
        ensures { result ≡ length self.now.list.items }
    {
        self.list.len()
    }

    // The `k`-th place, or none beyond the last. Out of any list, the `k`-th rule that these places pick stands there.
    #[tactic(auto, using(crate::proofs::Standing::found))]
    pub fn find(&self, k: usize) -> Option<usize>
        ensures value { result ≡ slice_get self.now.list.items k }
        ensures stands { (rules : List Rule) → slice_get (picks self.now.list.items rules) k ≡ stands_at result rules }
    {
        self.list.get(k).copied()
    }

    // How many rules of `book` these places pick.
    pub fn count<B: RuleBook>(&self, book: &B) -> usize
        ensures { result ≡ length (picks self.now.list.items (B.meaning book.now).rules) }
    {
        let rules = book.rules();
        let mut count = self.len();
        // One by one from the end, since mostly every place lies within the book. Tried by `partition_point`, alone and beyond the last places: it misses this loop's speed there fourfold, or that of each question to a set allowance by half.
        while count > 0 && self.list[count - 1] >= rules {
            count -= 1;
        }
        count
    }
}

// Whether there is a rule at this place and its key is not among `keys`.
fn is_free<B: RuleBook>(book: &B, keys: &[Key], place: usize) -> bool
    ensures { result ≡ free_in keys.now (rule_at (B.meaning book.now) place) }
{
    book.rule(place)
        .is_some_and(|head| first_place(keys, &head.key).is_none())
}
