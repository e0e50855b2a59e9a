//! The rules of every bus are judged, of a machine taken apart.

ghost use Rattle.std.specs.Prelude.{◌≡◌, None, length, true};
ghost use Rattle.std.specs.List.{range_with_len};
ghost use Rattle.ddm_tree.specs.TreeModel.Turns.Machine.{ask_bus};
ghost use Rattle.ddm_tree.specs.TreeModel.Turns.Tree.{bus_of_number};
ghost use Rattle.state_judging.specs.Judged.{broken_among, broken_item, or_none};
ghost use Rattle.ddm_tree.specs.Machine.{is_part};

use crate::judging::broken_under;
use crate::machine::path_of;
use crate::named::Named;
use crate::of_ddm_types::{BusNo, ItemId};
use crate::of_state_reading::StateRefusal;
use crate::parts::Parts;
use crate::subtree::Subtree;

impl<const WORDS: usize, C: Subtree<WORDS>> Parts<WORDS, C> {
    /// The least item that breaks a rule of a bus: item 0 where places aren't kept. It takes no memory.
    pub fn broken_item(&self, bus: BusNo) -> Option<ItemId>
        requires { is_part (bus_of_number bus) self.now ≡ true }
        ensures { result ≡ or_none self.now (ask_bus bus (λ w p ns. broken_item self.now p ns) None self.now) }
    {
        let path = path_of(Named::Bus(bus), &self.leaf_paths, &self.bus_paths);
        broken_under(&self.top, &self.children, bus, path, self.items.len())
    }

    /// The least bus of which a rule is broken, with the least item that breaks one there. It takes no memory.
    pub fn broken_rule(&self) -> Option<StateRefusal>
        ensures { result ≡ broken_among self.now (range_with_len 0 (length self.now.traffic)) }
    {
        for bus in 0..self.counts.buses {
            if let Some(item) = self.broken_item(BusNo(bus)) {
                return Some(StateRefusal::BrokenRule { bus, item: item.0 });
            }
        }
        None
    }
}
