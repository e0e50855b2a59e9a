//! Tests of a leaf.

ghost use Rattle.std.specs.Prelude.{◌≡◌, ◌<◌, true, IfOk};
ghost use Rattle.part_tests.specs.TreeModel.State.Rooms.{leaf_within};

use crate::of_ddm_types::{
    Code, CodePart, Effect, ItemId, Items, Key, LeafNo, LeafState, MOST_ITEMS, NoMemory, Span,
    Stamp, Start, TreeSizes, TurnAnswer, TxKind, Words, count_items,
};
use crate::of_item_states::Agent;
use crate::of_tree_model::LeafSpot;
use leaf_protocol::Leaf;
use std::alloc::Global;
use std::test::Fail;

const CODE: u32 = 0x10000;

/// A leaf of three items, whose one set has two ways.
type Small = Leaf<2, 4>;

fn small(alloc: Global) -> Result<Small, NoMemory>
    ensures { IfOk result (λ leaf. leaf_within 3 leaf ≡ true) }
{
    let config = TreeSizes {
        sets: 1,
        buffer: 1,
        parking: 0,
        down: 0,
        requests: 0,
        replies: 1,
    };
    let start = Start {
        entry: CODE,
        harts: 1,
        stack_base: 0x8000,
        stack_bytes: 16,
    };
    Leaf::new(alloc, LeafNo(0), 3, &config, start)
}

/// LUI x5, 0x20; LW x7, 0(x5); SW x7, 4(x5); LW x7, 32(x5)
fn code(alloc: Global) -> Result<Code, NoMemory> {
    let part = CodePart {
        start: CODE,
        words: vec![in alloc; 0x0002_02b7, 0x0002_a383, 0x0072_a223, 0x0202_a383]?,
    };
    Code::from_parts(alloc, vec![in alloc; part]?)
}

/// Three items of four words.
#[tactic(auto, unfolding(crate::specs::Opened::items_of))]
fn items(alloc: Global) -> Result<Items, NoMemory>
    ensures { IfOk result (λ items. items.size ≡ 16) }
{
    let spans = [Span {
        start: 0x20000,
        bytes: 48,
        writable: true,
    }];
    if count_items(alloc, &spans, 16)? > u64::from(MOST_ITEMS) {
        return Err(NoMemory);
    }
    Items::from_spans(alloc, &spans, 16)
}

fn turn(leaf: &mut Small, code: &Code, items: &Items) -> Option<TurnAnswer>
    requires size { items.now.size ≡ 16 }
    requires within { leaf_within 3 leaf.old ≡ true }
    ensures { leaf_within 3 leaf.new ≡ true }
{
    if leaf.hart().done() > 99 || items.len() != 3 {
        return None;
    }
    Some(leaf.hart_turn(code, items, Key::zero(), 0))
}

fn inject(leaf: &mut Small, item: u32, word: u32)
    requires inside { item < 3 }
    requires within { leaf_within 3 leaf.old ≡ true }
    ensures { leaf_within 3 leaf.new ≡ true }
{
    leaf.take_inject(ItemId(item), Words { w: [word; 4] }, Stamp::zero());
}

fn data(leaf: &mut Small, item: u32, word: u32)
    requires inside { item < 3 }
    requires within { leaf_within 3 leaf.old ≡ true }
    ensures { leaf_within 3 leaf.new ≡ true }
{
    leaf.take_data(ItemId(item), Words { w: [word; 4] }, Stamp::zero());
}

fn exclusive(leaf: &mut Small, item: u32)
    requires inside { item < 3 }
    requires within { leaf_within 3 leaf.old ≡ true }
    ensures { leaf_within 3 leaf.new ≡ true }
{
    leaf.take_exclusive(ItemId(item), Stamp::zero());
}

fn effect(answer: Option<TurnAnswer>) -> Option<Effect> {
    match answer {
        Some(TurnAnswer::Retired(op)) => Some(op.effect),
        _ => None,
    }
}

fn first_word(leaf: &Small, item: u32) -> Option<(LeafState, u32, LeafSpot)> {
    let (state, words, spot) = leaf.entry(ItemId(item))?;
    Some((state, words.w[0], spot))
}

#[test]
fn moved_to_the_buffer(rt: HostRuntime) -> Result<(), Fail> {
    let mut leaf = small(rt.alloc())?;
    inject(&mut leaf, 1, 5);
    inject(&mut leaf, 2, 6);
    assert_eq!(rt;
        first_word(&leaf, 2),
        Some((LeafState::Exclusive, 6, LeafSpot::Way(1)))
    );
    let code = code(rt.alloc())?;
    let items = items(rt.alloc())?;
    assert!(rt; turn(&mut leaf, &code, &items).is_some());
    assert_eq!(rt;
        turn(&mut leaf, &code, &items),
        Some(TurnAnswer::Issued(TxKind::ReadTx, ItemId(0)))
    );
    assert_eq!(rt;
        turn(&mut leaf, &code, &items),
        Some(TurnAnswer::Waiting(ItemId(0)))
    );
    assert_eq!(rt;
        first_word(&leaf, 1),
        Some((LeafState::Exclusive, 5, LeafSpot::Buffer(0)))
    );
    match leaf.leaving(9) {
        Some(item) => {
            let words = leaf.give_up(item);
            assert_eq!(rt; words.w, [5; 4]);
            assert_eq!(rt; first_word(&leaf, 1), None);
        }
        None => return Err(Fail::from("no copy leaves")),
    }
    Ok(())
}

#[test]
fn loaded_and_stored(rt: HostRuntime) -> Result<(), Fail> {
    let mut leaf = small(rt.alloc())?;
    let code = code(rt.alloc())?;
    let items = items(rt.alloc())?;
    assert!(rt; turn(&mut leaf, &code, &items).is_some());
    assert!(rt; turn(&mut leaf, &code, &items).is_some());
    assert!(rt; leaf.waits(ItemId(0)));
    data(&mut leaf, 0, 7);
    assert_eq!(rt;
        effect(turn(&mut leaf, &code, &items)),
        Some(Effect::Load {
            address: 0x20000,
            word: 7
        })
    );
    assert_eq!(rt;
        turn(&mut leaf, &code, &items),
        Some(TurnAnswer::Issued(TxKind::EraseTx, ItemId(0)))
    );
    assert_eq!(rt; leaf.first_request(), Some((TxKind::EraseTx, ItemId(0))));
    exclusive(&mut leaf, 0);
    assert_eq!(rt;
        effect(turn(&mut leaf, &code, &items)),
        Some(Effect::Store {
            address: 0x20004,
            before: 7,
            after: 7
        })
    );
    assert_eq!(rt;
        first_word(&leaf, 0),
        Some((LeafState::Exclusive, 7, LeafSpot::Way(0)))
    );
    Ok(())
}
