//! Tests of tree files.

use crate::of_ddm_types::BusNo;
use crate::of_tree_config::{TreeKey, TreeRefusal, read_tree};
use std::alloc::Global;
use std::process::Abort;
use std::test::Fail;

const PLAIN: &str =
    "shape = \"((LL)(L))\"\nways = 4\nsets = 1\nbuffer = 2\nparking = 3\ndown = 16\nrequests = 17\n\
    replies = 18\nstack_base = 196608\nstack_bytes = 16\n";

// Comments, another order, quoted keys, another base, and separators.
const ORDERED: &str =
    "# a tree\nitem_bytes = 0x40\n\"stack_bytes\" = 0\nstack_base = 4_294_967_280 # the last\n\
    replies = 4096\n'requests' = 1\ndown = 1\nparking = 64\nbuffer = 16\nsets = 4096\nways = 1\n\
    shape = '(((((L))))'\n";

fn refusal(rt: &impl Abort, alloc: Global, text: &str) -> TreeRefusal {
    read_tree(alloc, text.as_bytes())
        .err()
        .expect(rt, "a refusal")
}

fn unknown_is(rt: &impl Abort, alloc: Global, text: &str, name: &str) -> bool {
    match refusal(rt, alloc, text) {
        TreeRefusal::UnknownKey(key) => key.as_str() == name,
        _ => false,
    }
}

fn is_missing(rt: &impl Abort, alloc: Global, text: &str, key: TreeKey) -> bool {
    match refusal(rt, alloc, text) {
        TreeRefusal::MissingKey(missing) => missing == key,
        _ => false,
    }
}

fn is_mistyped(rt: &impl Abort, alloc: Global, text: &str, key: TreeKey) -> bool {
    match refusal(rt, alloc, text) {
        TreeRefusal::WrongType(mistyped) => mistyped == key,
        _ => false,
    }
}

fn is_out_of_range(rt: &impl Abort, alloc: Global, text: &str, key: TreeKey) -> bool {
    match refusal(rt, alloc, text) {
        TreeRefusal::OutOfRange(outside) => outside == key,
        _ => false,
    }
}

fn is_no_shape(rt: &impl Abort, alloc: Global, text: &str, begins: u32) -> bool {
    match refusal(rt, alloc, text) {
        TreeRefusal::BadShape(place) => place == begins,
        _ => false,
    }
}

#[test]
fn ten_lines(rt: HostRuntime) -> Result<(), Fail> {
    let tree = read_tree(rt.alloc(), PLAIN.as_bytes())?;
    assert_eq!(rt; tree.nodes.harts(), 3);
    assert_eq!(rt; tree.nodes.buses(), 3);
    assert_eq!(rt; tree.nodes.depth(), 2);
    assert_eq!(rt; tree.nodes.children(BusNo(0)), Some(2));
    assert_eq!(rt; tree.nodes.children(BusNo(1)), Some(2));
    assert_eq!(rt; tree.nodes.children(BusNo(2)), Some(1));
    assert_eq!(rt; tree.nodes.children(BusNo(3)), None);
    assert_eq!(rt; tree.ways, 4);
    let sizes = tree.sizes();
    assert_eq!(rt; sizes.parking, 3);
    assert_eq!(rt; sizes.replies, 18);
    assert_eq!(rt; tree.stack_base, 196_608);
    assert_eq!(rt; tree.stack_bytes, 16);
    assert_eq!(rt; tree.item_bytes, 16);
    Ok(())
}

#[test]
fn another_spelling(rt: HostRuntime) -> Result<(), Fail> {
    let alloc = rt.alloc();
    assert!(rt; matches!(refusal(&rt, alloc, ORDERED), TreeRefusal::BadShape(10)));
    let mended = ORDERED.replace(alloc, "(((((L))))", "((((L))))")?;
    let tree = read_tree(alloc, mended.as_str().as_bytes())?;
    assert_eq!(rt; tree.nodes.depth(), 4);
    assert_eq!(rt; tree.nodes.buses(), 4);
    assert_eq!(rt; tree.stack_base, 4_294_967_280);
    assert_eq!(rt; tree.item_bytes, 64);
    Ok(())
}

#[test]
fn keys(rt: HostRuntime) -> Result<(), Fail> {
    let alloc = rt.alloc();
    assert!(rt; unknown_is(&rt, alloc, "zebra = 1\ncache = 1\nshape = 2\n", "cache"));
    assert!(rt; unknown_is(&rt, alloc, "a.b = 1\nshape = 2\n", "a"));
    assert!(rt; is_missing(&rt, alloc, "", TreeKey::Shape));
    assert!(rt; is_mistyped(&rt, alloc, "shape.x = 1\n", TreeKey::Shape));
    assert!(rt; is_missing(&rt, alloc, "shape = \"(L)\"\n", TreeKey::Ways));
    assert!(rt; is_out_of_range(&rt, alloc, "shape = \"(L)\"\nways = 3\n", TreeKey::Ways));
    let text = PLAIN.replace(alloc, "sets = 1\n", "sets = \"4\"\n")?;
    assert!(rt; is_mistyped(&rt, alloc, text.as_str(), TreeKey::Sets));
    let none = PLAIN.replace(alloc, "replies = 18\n", "")?;
    assert!(rt; is_missing(&rt, alloc, none.as_str(), TreeKey::Replies));
    let high = PLAIN.replace(alloc, "196608", "4294967248")?;
    assert!(rt; is_out_of_range(&rt, alloc, high.as_str(), TreeKey::StackBytes));
    let items = PLAIN.replace(
        alloc,
        "stack_bytes = 16\n",
        "stack_bytes = 16\nitem_bytes = 32\n",
    )?;
    assert!(rt; is_out_of_range(&rt, alloc, items.as_str(), TreeKey::ItemBytes));
    Ok(())
}

#[test]
fn shapes(rt: HostRuntime) -> Result<(), Fail> {
    let alloc = rt.alloc();
    assert!(rt; is_no_shape(&rt, alloc, "shape = \"()\"", 1));
    assert!(rt; is_no_shape(&rt, alloc, "shape = \"\"", 0));
    assert!(rt; is_no_shape(&rt, alloc, "shape = \"(L\"", 2));
    assert!(rt; is_no_shape(&rt, alloc, "shape = \"(L)(\"", 3));
    let uneven = "shape = \"((L)L)\"";
    assert!(rt; matches!(refusal(&rt, alloc, uneven), TreeRefusal::Uneven));
    let deep = "shape = \"(((((L)))))\"";
    assert!(rt; matches!(refusal(&rt, alloc, deep), TreeRefusal::TooDeep));
    let wide = "shape = \"(LLLLLLLLLLLLLLLLL)\"";
    assert!(rt; matches!(refusal(&rt, alloc, wide), TreeRefusal::TooWide));
    let many =
        "shape = \"((LLLLLLLLLLLLLLLL)(LLLLLLLLLLLLLLLL)(LLLLLLLLLLLLLLLL)(LLLLLLLLLLLLLLLL)(L))\"";
    assert!(rt; matches!(refusal(&rt, alloc, many), TreeRefusal::TooManyLeaves));
    Ok(())
}

#[test]
fn other_bytes(rt: HostRuntime) -> Result<(), Fail> {
    let alloc = rt.alloc();
    assert!(rt; matches!(refusal(&rt, alloc, "shape = "), TreeRefusal::NotToml));
    assert!(rt;
        matches!(
            refusal(&rt, alloc, "ways = 9223372036854775808"),
            TreeRefusal::NotToml
        )
    );
    assert!(rt; matches!(read_tree(alloc, &[35, 255]), Err(TreeRefusal::NotToml)));
    let comment = vec![in alloc; b'#'; 65_537]?;
    assert!(rt; matches!(read_tree(alloc, &comment), Err(TreeRefusal::TooLong)));
    let shorter = read_tree(alloc, &comment[1..]);
    assert!(rt; matches!(shorter, Err(TreeRefusal::MissingKey(TreeKey::Shape))));
    Ok(())
}
