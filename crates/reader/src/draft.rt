// A list in the making, whose last entry may be an open group.
use std::marker::Model;
use store::store::Store;

mod calls;

#[derive(Drop)]
pub struct Draft {
    store: Store,
    // is the last entry an open group? A flag, since an enum of open and closed would move the store at each group
    grouped: bool,
}

impl Model for Draft {
    ghost use Rattle.std.specs.Prelude.{◌≡◌};
    ghost use Rattle.addresses.specs.Steps.{SoFar};
    ghost use Rattle.store.specs.Stored.{stored};
    ghost use Rattle.reader.specs.Drafts.{so_far, is_open};

    ghost Value = { SoFar };

    ghost view = { λ d. so_far d.grouped (stored d.store) };

    ghost invariant = { λ d. is_open (so_far d.grouped (stored d.store)) ≡ d.grouped };
}
