// Working lists of sets, each without repeats.
ghost use Rattle.std.specs.Prelude.{◌≡◌, ◌≤◌, [], IfOk, OnErr, vec_capacity};
ghost use Rattle.std.specs.List.Sorted.{IsStrictlyIncreasing};
ghost use Rattle.unions.specs.Working.{Added};

use states::StateSet;
use std::alloc::{AllocError, Global};

const ROOM: usize = 65_536;

// The sets stand in rising order. There is room for 65,536 before the heap is asked for more.
// Seen by its fields and not by a model, which would hide from callers that the sets of every list rise.
#[derive(Drop)]
pub struct SetList {
    list: Vec<StateSet>,
    ghost climbs: { IsStrictlyIncreasing list.items },
    ghost room: { 65536 ≤ vec_capacity list },
}

impl SetList {
    // No set.
    pub fn new(heap: Global) -> Result<SetList, AllocError>
        ensures { IfOk result (λ s. s.list.items ≡ []) }
    {
        let list = Vec::with_capacity(heap, ROOM)?;
        Ok(SetList { list })
    }

    // Takes out every set.
    pub fn clear(&mut self)
        ensures { self.new.list.items ≡ [] }
    {
        self.list.clear();
    }

    // The sets, the smallest number first.
    pub fn as_slice(&self) -> &[StateSet]
        ensures { result.now ≡ self.now.list.items }
    {
        self.list.as_slice()
    }

    // Puts in one set, if it is not there. Where memory is wanting the list stays as it was.
    pub fn insert(&mut self, set: StateSet) -> Result<(), AllocError>
        ensures added { Added result self.old.list.items self.new.list.items (λ X. X ≡ set) }
        ensures same { OnErr result (self.new.list.items ≡ self.old.list.items) }
    {
        let Err(place) = self.list.binary_search(&set) else {
            return Ok(());
        };
        self.list.insert(place, set)?;
        Ok(())
    }
}

#[cfg(test)]
mod tests {
    use super::*;
    use std::test::Fail;

    #[test]
    fn sets_stand_once_and_rise(rt: HostRuntime) -> Result<(), Fail> {
        let mut list = SetList::new(rt.alloc())?;
        list.insert(6)?;
        list.insert(1)?;
        list.insert(6)?;
        assert_eq!(rt; list.as_slice(), [1, 6].as_slice());
        Ok(())
    }
}
