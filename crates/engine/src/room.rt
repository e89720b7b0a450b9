//! Whether there is room for facts.
ghost use Rattle.std.specs.Prelude.{◌≡◌, ◌<◌, ◌≤◌, ◌^◌};
ghost use Rattle.engine.specs.Room.{room, short_of_store, short_of_room};

use crate::stack::GOALS;
use machine::Shortage;
use stores::LABELS;

/// How much of a job is used: its goals, its stored facts and its next label; and the capacity of its store.
#[derive(Clone, Copy)]
pub(crate) struct Used {
    pub(crate) goals: usize,
    pub(crate) facts: usize,
    pub(crate) next: u32,
    pub(crate) capacity: usize,
    ghost few_goals: { goals ≤ 512 },
    ghost few_facts: { facts ≤ capacity },
    ghost small: { capacity ≤ 1024 },
}

/// Whether there is room to store so many facts more, or what there is too little of.
pub(crate) fn room_in_store(used: &Used, stored: usize) -> Result<(), Shortage>
    requires { stored ≤ 1024 }
    ensures { result ≡ room (short_of_store used.now.capacity used.now.facts used.now.next stored) }
{
    if used.facts + stored > used.capacity {
        return Err(Shortage::Facts);
    }
    // `as`: no `From` takes a u32 to a usize, and `try_from` could not fail.
    if used.next as usize + stored > LABELS as usize + 1 {
        return Err(Shortage::Labels);
    }
    Ok(())
}

/// Whether there is room to bring in so many facts, of which some are stored at once, or what there is too little of.
pub(crate) fn room_in_job(used: &Used, brought: usize, stored: usize) -> Result<(), Shortage>
    requires brought { brought < 2 ^ 32 }
    requires stored { stored ≤ 1024 }
    ensures { result ≡ room (short_of_room used.now.goals brought used.now.capacity used.now.facts used.now.next stored) }
{
    if used.goals + brought > GOALS {
        return Err(Shortage::Goals);
    }
    room_in_store(used, stored)
}
