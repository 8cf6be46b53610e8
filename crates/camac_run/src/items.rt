// The items of a log.

ghost use Rattle.std.specs.Prelude.{◌≡◌, ◌++◌, ◌∷◌, [], OnOk};

use camac_machine::Item;
use std::alloc::{AllocError, Global};
use std::marker::Model;

/// The items of a run, in their order.
#[derive(Drop)]
pub struct Items {
    list: Vec<Item>,
}

impl Model for Items {
    ghost use Rattle.std.specs.Prelude.{List};
    ghost use Rattle.camac_machine.specs.declared.item.Item.{Item as Told};

    ghost Value = { List Told };

    ghost view = { λ i. i.list.items };
}

impl Items {
    /// No items. It takes no memory.
    pub(crate) fn new(alloc: Global) -> Self
        ensures { result ≡ [] }
    {
        Items {
            list: Vec::new(alloc),
        }
    }

    /// Adds an item at the end. An `Err` is out of memory.
    pub(crate) fn push(&mut self, item: Item) -> Result<(), AllocError>
        ensures { OnOk result (self.new ≡ self.old ++ item ∷ []) }
    {
        self.list.extend_from_slice(&[item])
    }

    /// The items as a slice.
    pub fn as_slice(&self) -> &[Item]
        ensures { result.now ≡ self.now }
    {
        &self.list
    }
}
