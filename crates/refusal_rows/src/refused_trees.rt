//! Tree files that are refused.

use asked_commands::answers::{RUN, ask};
use asked_commands::files::{Files, TreeFile, one_leaf, store_and_load};
use std::alloc::Global;
use std::test::Fail;

// The tree file with another text in place of the line of a key.
fn with_line(alloc: Global, file: &[u8], key: &str, text: &str) -> Result<Vec<u8>, Fail> {
    let mut with = Vec::new(alloc);
    for line in file.split(|byte| *byte == b'\n') {
        if line.starts_with(key.as_bytes()) {
            with.extend_from_slice(text.as_bytes())?;
        } else {
            with.extend_from_slice(line)?;
        }
        with.push(b'\n')?;
    }
    Ok(with)
}

#[test]
fn lines_at_fault(rt: HostRuntime) -> Result<(), Fail> {
    let alloc = rt.alloc();
    let lines = [
        ("shape", "shape = \"()\"", "bad shape 1"),
        ("shape", "shape = \"((L)L)\"", "uneven"),
        ("shape", "shape = \"(((((L)))))\"", "too deep"),
        ("ways", "ways = 3", "out of range ways"),
        ("sets", "sets = \"4\"", "wrong type sets"),
        ("replies", "", "missing key replies"),
        ("replies", "replies = 16\ncache = 1", "unknown key cache"),
        (
            "replies",
            "replies = 16\n\"a key\" = 1",
            "unknown key a?key",
        ),
        ("replies", "replies = ", "not toml"),
    ];
    let plain = one_leaf().bytes(alloc)?;
    for (key, text, name) in lines {
        let files = Files {
            tree: with_line(alloc, &plain, key, text)?,
            image: store_and_load(alloc)?,
            schedule: b"end\n".to_vec(alloc)?,
        };
        let line = format!(in alloc; "ddm: tree: {name}")?;
        assert!(rt;
            ask(alloc, RUN, &files)?.is_refusal(4, line.as_str()),
            "{line}"
        );
    }
    Ok(())
}

// A tree file whose first key is this, joined so many times by full stops, with a value that stands in so many arrays or tables.
fn nested(alloc: Global, parts: u32, depth: u32, open: &str, close: &str) -> Result<Vec<u8>, Fail> {
    let mut text = b"a".to_vec(alloc)?;
    for _ in 1..parts {
        text.extend_from_slice(b".a")?;
    }
    text.extend_from_slice(b" = ")?;
    for _ in 0..depth {
        text.extend_from_slice(open.as_bytes())?;
    }
    text.push(b'1')?;
    for _ in 0..depth {
        text.extend_from_slice(close.as_bytes())?;
    }
    text.push(b'\n')?;
    Ok(text)
}

// Of arrays and tables in one another, of the parts of a key and of numbers there is a most; up to it the key is an unknown one.
#[test]
fn what_is_no_toml(rt: HostRuntime) -> Result<(), Fail> {
    let alloc = rt.alloc();
    let trees = [
        (nested(alloc, 1, 80, "[", "]")?, "unknown key a"),
        (nested(alloc, 1, 81, "[", "]")?, "not toml"),
        (nested(alloc, 1, 80, "{a=", "}")?, "unknown key a"),
        (nested(alloc, 1, 81, "{a=", "}")?, "not toml"),
        (nested(alloc, 80, 0, "", "")?, "unknown key a"),
        (nested(alloc, 81, 0, "", "")?, "not toml"),
        (b"a = 1e308\n".to_vec(alloc)?, "unknown key a"),
        (b"a = 1e309\n".to_vec(alloc)?, "not toml"),
        (b"a = 9223372036854775807\n".to_vec(alloc)?, "unknown key a"),
        (b"a = 9223372036854775808\n".to_vec(alloc)?, "not toml"),
        (b"a = \"\xff\"\n".to_vec(alloc)?, "not toml"),
    ];
    for (tree, name) in trees {
        let files = Files {
            tree,
            image: store_and_load(alloc)?,
            schedule: b"end\n".to_vec(alloc)?,
        };
        let line = format!(in alloc; "ddm: tree: {name}")?;
        assert!(rt;
            ask(alloc, RUN, &files)?.is_refusal(4, line.as_str()),
            "{line}"
        );
    }
    Ok(())
}

#[test]
fn files_at_fault(rt: HostRuntime) -> Result<(), Fail> {
    let alloc = rt.alloc();
    let trees: [(&[u8], &str); 4] = [
        (b"shape = ", "not toml"),
        (b"shape = \"()\"\n", "bad shape 1"),
        (b"shape = \"(L)\"\n", "missing key ways"),
        (
            b"a_key_of_more_bytes_than_are_written_at_one_time_so_that_its_line_has_pieces = 1\n",
            "unknown key a_key_of_more_bytes_than_are_written_at_one_time_so_that_its_line_has_pieces",
        ),
    ];
    for (tree, name) in trees {
        let files = Files {
            tree: tree.to_vec(alloc)?,
            image: store_and_load(alloc)?,
            schedule: b"end\n".to_vec(alloc)?,
        };
        let line = format!(in alloc; "ddm: tree: {name}")?;
        assert!(rt;
            ask(alloc, RUN, &files)?.is_refusal(4, line.as_str()),
            "{line}"
        );
    }
    Ok(())
}

#[test]
fn items_of_32_bytes(rt: HostRuntime) -> Result<(), Fail> {
    let alloc = rt.alloc();
    let tree = TreeFile {
        item_bytes: 32,
        ..one_leaf()
    };
    let files = Files {
        tree: tree.bytes(alloc)?,
        image: store_and_load(alloc)?,
        schedule: b"end\n".to_vec(alloc)?,
    };
    assert!(rt; ask(alloc, RUN, &files)?.is_refusal(4, "ddm: tree: out of range item_bytes"));
    Ok(())
}
