// Where a name stands in a sound table.
ghost use Rattle.std.specs.Prelude.{◌≡◌};
ghost use Rattle.name.specs.Name.{canonical};
ghost use Rattle.slots.specs.Form.{Sound};
ghost use Rattle.slots.specs.Promise.{OfTable};
ghost use Rattle.slots.specs.Sizes.{most_names};
ghost use Rattle.table.specs.Promise.{slot_for};

use slot_row::{SLOTS, find};

#[derive(Drop)]
pub enum SlotFor {
    // in the slot at this offset
    Held(usize),
    // nowhere, and the slot at this offset is the first unused one
    Free(usize),
    // nowhere, and every slot is used
    Full,
}

pub(crate) fn slot_for(table: &[u8], name: &[u8]) -> SlotFor
    requires { Sound most_names table.now }
    ensures { OfTable most_names table.now (λ t. result ≡ slot_for most_names (canonical name.now) t) }
{
    let i = find(table, name);
    if i == SLOTS {
        return SlotFor::Full;
    }
    let at = slot::SIZE * i;
    if table[at] == 0 {
        return SlotFor::Free(at);
    }
    SlotFor::Held(at)
}
