//! Tests of a leaf's memory.

ghost use Rattle.std.specs.Prelude.{◌≡◌};

use crate::of_attraction_mem::{AttractionMem, SetFull};
use crate::of_ddm_types::{ItemId, LeafState, Words};
use std::test::Fail;

type Small = AttractionMem<2, 2>;

/// None where the item stands in the memory already.
fn put(memory: &mut Small, item: u32) -> Option<Result<u32, SetFull>>
    ensures { memory.new.sets ≡ memory.old.sets }
{
    if memory.find(ItemId(item)).is_some() {
        return None;
    }
    let words = Words { w: [item, 7] };
    Some(memory.place(ItemId(item), LeafState::Shared, words))
}

/// The item's set has a free way no more, or the item goes there.
fn put_if_free(memory: &mut Small, item: u32) -> Option<u32>
    ensures { memory.new.sets ≡ memory.old.sets }
{
    if memory.find(ItemId(item)).is_some() {
        return None;
    }
    let way = memory.free_way(ItemId(item))?;
    let words = Words { w: [item, 8] };
    memory.place_at(ItemId(item), way, LeafState::Reading, words);
    Some(way)
}

fn chosen(memory: &Small, item: u32, victim: u8) -> Option<ItemId> {
    match memory.free_way(ItemId(item)) {
        Some(_) => None,
        None => Some(memory.victim(ItemId(item), victim)),
    }
}

fn change(memory: &mut Small, item: u32) -> bool
    ensures { memory.new.sets ≡ memory.old.sets }
{
    if memory.find(ItemId(item)).is_none() {
        return false;
    }
    memory.set_state(ItemId(item), LeafState::Exclusive);
    if memory.find(ItemId(item)).is_some() {
        memory.set_words(ItemId(item), Words { w: [9, 9] });
    }
    true
}

fn first_word(memory: &Small, item: u32) -> Option<u32> {
    let words = memory.words(ItemId(item))?;
    Some(words.w[0])
}

#[test]
fn two_sets(rt: HostRuntime) -> Result<(), Fail> {
    let mut memory = Small::new(rt.alloc(), 2)?;
    let rows = [
        (1, Some(Ok(0))),
        (3, Some(Ok(1))),
        (3, None),
        (5, Some(Err(SetFull(1)))),
        (0, Some(Ok(0))),
    ];
    for (item, answer) in rows {
        assert_eq!(rt; put(&mut memory, item), answer, "{item} is put");
    }
    assert_eq!(rt; memory.find(ItemId(3)), Some((1, LeafState::Shared)));
    assert_eq!(rt; memory.find(ItemId(5)), None);
    assert_eq!(rt; memory.free_way(ItemId(2)), Some(1));
    for (victim, item) in [(0, 1), (7, 3), (254, 1)] {
        assert_eq!(rt;
            chosen(&memory, 5, victim),
            Some(ItemId(item)),
            "victim {victim}"
        );
    }
    assert!(rt; memory.remove(ItemId(9)).is_none());
    assert!(rt; memory.remove(ItemId(1)).is_some());
    assert_eq!(rt; put_if_free(&mut memory, 5), Some(0));
    assert!(rt; change(&mut memory, 3));
    let tags = [
        Some((ItemId(0), LeafState::Shared)),
        None,
        Some((ItemId(5), LeafState::Reading)),
        Some((ItemId(3), LeafState::Exclusive)),
    ];
    assert_eq!(rt; memory.tags(), tags.as_slice());
    assert_eq!(rt; memory.stored().len(), 4);
    for (item, word) in [(0, Some(0)), (1, None), (3, Some(9)), (5, Some(5))] {
        assert_eq!(rt; first_word(&memory, item), word, "word of {item}");
    }
    Ok(())
}

#[test]
fn standing(rt: HostRuntime) -> Result<(), Fail> {
    let mut memory = Small::new(rt.alloc(), 2)?;
    let _ = put(&mut memory, 1);
    assert_eq!(rt; memory.at(1, 0), Some(ItemId(1)));
    assert_eq!(rt; memory.at(1, 1), None);
    assert_eq!(rt; memory.at(0, 0), None);
    Ok(())
}

#[derive(Clone, Copy)]
enum Call {
    Put(u32),
    Remove(u32),
}

/// The lowest way of the item's set that no entry of the list stands in. An entry is an item and its way.
fn plain_way(list: &[(u32, u32)], item: u32) -> Option<u32> {
    for way in 0..2 {
        if !list
            .iter()
            .any(|entry| entry.0 % 2 == item % 2 && entry.1 == way)
        {
            return Some(way);
        }
    }
    None
}

fn plain_find(list: &[(u32, u32)], item: u32) -> Option<u32> {
    let (_, way) = list.iter().find(|entry| entry.0 == item)?;
    Some(*way)
}

fn found_way(memory: &Small, item: u32) -> Option<u32> {
    let (way, _) = memory.find(ItemId(item))?;
    Some(way)
}

#[test]
fn mixed_calls_beside_a_plain_list(rt: HostRuntime) -> Result<(), Fail> {
    let mut memory = Small::new(rt.alloc(), 2)?;
    let mut list = Vec::<(u32, u32)>::new(rt.alloc());
    let calls = [
        Call::Put(5),
        Call::Put(2),
        Call::Put(3),
        Call::Put(1),
        Call::Put(3),
        Call::Remove(5),
        Call::Put(1),
        Call::Remove(0),
        Call::Put(0),
        Call::Put(4),
        Call::Remove(2),
        Call::Put(4),
        Call::Remove(3),
        Call::Remove(1),
        Call::Put(3),
    ];
    for (turn, call) in calls.into_iter().enumerate() {
        match call {
            Call::Put(item) => {
                let _ = put(&mut memory, item);
                if plain_find(&list, item).is_none() {
                    if let Some(way) = plain_way(&list, item) {
                        list.push((item, way))?;
                    }
                }
            }
            Call::Remove(item) => {
                let _ = memory.remove(ItemId(item));
                list.retain(|entry| entry.0 != item);
            }
        }
        for item in 0..6 {
            let way = plain_find(&list, item);
            assert_eq!(rt;
                found_way(&memory, item),
                way,
                "item {item} after call {turn}"
            );
            let word = match way {
                Some(_) => Some(item),
                None => None,
            };
            assert_eq!(rt;
                first_word(&memory, item),
                word,
                "word of {item} after call {turn}"
            );
        }
    }
    Ok(())
}
