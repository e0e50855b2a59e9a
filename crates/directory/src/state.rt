//! The state of a directory.

ghost use Rattle.std.specs.Prelude.{◌≡◌, ℕ, ◌+◌, ◌<◌, ◌≤◌, ◌^◌, false, true, List, [], length, map, replicate};
ghost use Rattle.std.specs.Prelude.{Option, None, option_copied, option_map, slice_get, IfOk, IfSome, is_some};
ghost use Rattle.std.specs.Prelude.{unwrap_or};
ghost use Rattle.directory.specs.DdmTypes.declared.sizes.Hold.TheVariants.{Exclusive};
ghost use Rattle.directory.specs.TreeModel.State.Values.{DirValue, absent_item};
ghost use Rattle.directory.specs.TreeModel.State.Directory.{parked_place, queue_of, with_hold};
ghost use Rattle.directory.specs.TreeModel.State.Lengths.{dir_lengths};
ghost use Rattle.directory.specs.TreeModel.Turns.Found.{down_place, queue_words};
ghost use Rattle.directory.specs.TreeModel.Start.Nodes.{dir_sizes, new_dir};
ghost use Rattle.directory.specs.Packed.{packed_item};

use crate::ItemTable;
use crate::last_copy::later_copy;
use crate::of_ddm_types::{BusNo, Hold, ItemId, NoMemory, Stamp, TreeSizes, TxKind, Words};
use crate::of_item_states::DownEntry;
use crate::of_tree_model::DirLengths;
use crate::places::Places;
use replacement::Parking;
use std::alloc::Global;
use std::marker::Model;
use tx_queue::Queue;

/// A directory, without the children below it.
#[derive(Drop)]
pub struct DirState<const WORDS: usize> {
    pub(crate) bus: BusNo,
    pub(crate) level: u32,
    pub(crate) kept: ItemTable,
    pub(crate) down: Queue<DownEntry<WORDS>>,
    pub(crate) requests: Queue<(TxKind, ItemId)>,
    pub(crate) replies: Queue<(ItemId, Words<WORDS>)>,
    pub(crate) parking: Parking<WORDS>,
    pub(crate) count: u32,
    pub(crate) epoch: Stamp,
    /// Where the entries of the down list and the requests stood when they were read.
    pub(crate) down_places: Places,
    pub(crate) request_places: Places,
}

impl<const WORDS: usize> Model for DirState<WORDS> {
    ghost use Rattle.std.specs.Prelude.{length, map};
    ghost use Rattle.directory.specs.TreeModel.State.Values.{DirValue};
    ghost use Rattle.directory.specs.DirParts.{request_of, copy_of, IsDirectory};

    ghost Value = { DirValue };

    ghost view = { λ d. record {
      bus = d.bus;
      level = d.level;
      sizes = record {
        down_room = d.down.capacity;
        request_room = d.requests.capacity;
        reply_room = d.replies.capacity;
        parking_room = d.parking.capacity;
        width = WORDS;
      };
      items = d.kept;
      down = d.down.list;
      requests = map request_of d.requests.list;
      replies = map copy_of d.replies.list;
      parked = d.parking.list;
      reserved = d.parking.reserved;
      count = d.count;
      epoch = d.epoch;
    } };

    ghost invariant = { λ d. IsDirectory WORDS d.level d.bus (length d.kept) d.down.items d.requests.items d.replies.items d.parking.list };
}

impl<const WORDS: usize> DirState<WORDS> {
    /// The directory over this bus, with so many buses above that one. It holds nothing.
    pub fn new(
        alloc: Global,
        bus: BusNo,
        level: u32,
        items: u32,
        config: &TreeSizes,
    ) -> Result<Self, NoMemory>
        requires words_fit { WORDS < 2 ^ 32 }
        requires below_top { 0 < level }
        requires deepest { level ≤ 3 }
        requires bus { 0 < bus }
        ensures { IfOk result (λ d. d ≡ new_dir (dir_sizes config.now WORDS) level bus (replicate items absent_item)) }
    {
        let kept = ItemTable::new(alloc, items, Hold::Invalid)?;
        let down = Queue::new(alloc, config.down, items)?;
        let requests = Queue::new(alloc, config.requests, items)?;
        let replies = Queue::new(alloc, config.replies, items)?;
        let parking = Parking::new(alloc, config.parking)?;
        Ok(DirState {
            bus,
            level,
            kept,
            down,
            requests,
            replies,
            parking,
            count: 0,
            epoch: Stamp::zero(),
            down_places: Places::none(alloc),
            request_places: Places::none(alloc),
        })
    }

    /// How many buses are above its own.
    pub fn level(&self) -> u32
        ensures { result ≡ self.now.level }
    {
        self.level
    }

    /// The grants on the bus below.
    pub fn count(&self) -> u32
        ensures { result ≡ self.now.count }
    {
        self.count
    }

    /// The stamp of the last entry that it took from its down list.
    pub fn epoch(&self) -> Stamp
        ensures { result ≡ self.now.epoch }
    {
        self.epoch
    }

    /// The place of the item's parked copy.
    pub fn parked_at(&self, item: ItemId) -> Option<u32>
        ensures { result ≡ parked_place item self.now }
    {
        self.parking.find(item)
    }

    pub fn down_get(&self, place: u32) -> Option<&DownEntry<WORDS>>
        ensures { option_copied result ≡ slice_get self.now.down place }
    {
        self.down.get(place)
    }

    /// How many entries stand in the down list.
    pub fn down_len(&self) -> u32
        ensures { result ≡ length self.now.down }
    {
        self.down.len()
    }

    /// How long its lists are.
    pub fn lengths(&self) -> DirLengths
        ensures { result ≡ dir_lengths self.now }
    {
        DirLengths {
            down: self.down.len(),
            requests: self.requests.len(),
            replies: self.replies.len(),
            parking: self.parking.used(),
        }
    }

    /// How many copies are parked.
    pub fn parked_len(&self) -> u32
        ensures { result ≡ length self.now.parked }
    {
        self.parking.len()
    }

    /// The last data or inject of an item in the down list: its place and its words.
    pub fn last_copy(&self, item: ItemId) -> Option<(u32, Words<WORDS>)>
        ensures place { option_map (λ c. c.0) result ≡ down_place item 0 self.now.down }
        ensures words { option_map (λ c. c.1) result ≡ queue_words (queue_of item self.now.down) }
    {
        let mut last = None;
        for place in 0..self.down.len() {
            last = later_copy(&self.down, item, place, last);
        }
        last
    }

    /// What it keeps of each item, as one word: bits 0 and 1 have the hold (0 invalid, 1 shared, 2 exclusive), bits 2 and 3
    /// the note (1 local, 2 up-read, 3 up-erase), bits 4 to 7 its child; bit 8 is set where it is answering, and bit 16 + c
    /// where child c joined.
    pub fn packed(&self) -> &[u32]
        ensures { result.now ≡ map packed_item self.now.items }
    {
        self.kept.packed()
    }

    /// It holds the item Exclusive, before the run.
    pub fn start_hold(&mut self, item: ItemId)
        requires { item < length self.old.items }
        ensures { self.new ≡ with_hold item Exclusive self.old }
    {
        self.kept.set_hold(item, Hold::Exclusive);
    }
}
