//! What is read and printed, by examples.
use f2_model::{
    Begun, Bytes, Kind, Name, Names, Pages, Plan, Reason, Reply, Row, Space, Step, Tick, Tree,
};
use f2_script::{
    Grammar, Line, ScriptFault, begun_text, counted_text, found_text, line_text, made_text,
    mounted_text, next_call, parse, reply_text, step_text, tick_text, tree_text, unmounted_text,
};
use std::alloc::{AllocError, Global};

fn script(alloc: Global, bytes: &[u8]) -> Result<Vec<u8>, ScriptFault> {
    let lines = parse(alloc, bytes, Grammar::Whole)?;
    let mut text = Vec::new(alloc);
    for line in lines.as_slice() {
        text.extend_from_slice(line_text(alloc, line)?.as_slice())?;
        text.push(b'\n')?;
    }
    Ok(text)
}

/// The text with a byte 10 for each `;` and at its end.
fn lines(alloc: Global, text: &str) -> Result<Vec<u8>, AllocError> {
    let mut lines = Vec::new(alloc);
    for byte in text.as_bytes() {
        lines.push(if *byte == b';' { b'\n' } else { *byte })?;
    }
    lines.push(b'\n')?;
    Ok(lines)
}

/// In each line a script and what its lines are as text, a `;` between two lines.
const READ_BACK: &str = "|
# nothing;;mkfs 0 4294967295|;;mkfs 0 4294967295
mkfs 128 1;call 8 create /a//b.c/;call 1 mkdir /;call 1 unlink /%41%2F%0A|mkfs 128 1;call 8 create /a//b.c/;call 1 mkdir /;call 1 unlink /A%2F%0A
mkfs 128 1;call 2 write /a 0 1 65 18446744073709551615 65536 255;call 2 rmdir /a|mkfs 128 1;call 2 write /a 0 1 65 18446744073709551615 65536 255;call 2 rmdir /a
mkfs 1 1;call 1 truncate /a 9;call 1 rename /a /b;call 1 read /b 0 1024;call 1 list /;call 1 sync|mkfs 1 1;call 1 truncate /a 9;call 1 rename /a /b;call 1 read /b 0 1024;call 1 list /;call 1 sync
mkfs 1 1;begin 3 sync;begin 4 fsync /b;go 3;end 3;tick|mkfs 1 1;begin 3 sync;begin 4 fsync /b;go 3;end 3;tick
mkfs 1 1;crash 7;fail flush 1;fail read 2;fail write 3;stop 0;mount;unmount;tree;gen 0 50000|mkfs 1 1;crash 7;fail flush 1;fail read 2;fail write 3;stop 0;mount;unmount;tree;gen 0 50000";

fn reads_back(alloc: Global, row: &str) -> Result<bool, ScriptFault> {
    let (read, written) = row.split_once("|").unwrap_or((row, ""));
    let text = script(alloc, lines(alloc, read)?.as_slice())?;
    Ok(text.as_slice() == lines(alloc, written)?.as_slice())
}

#[test]
fn writes_the_lines_that_it_read(rt: HostRuntime) -> Result<(), ScriptFault> {
    for row in READ_BACK.lines() {
        assert!(rt; reads_back(rt.alloc(), row)?, "{row}");
    }
    Ok(())
}

/// In each line a grammar, the number of the first line outside it, and a script with a `;` between two lines.
const FAULTS: &str = "whole|1|tree
whole|3|#;;tree
whole|2|mkfs 128 1;cal 1 sync
whole|1|mkfs 128 01
whole|1|mkfs 4294967296 1
whole|1|mkfs 128 1 
whole|1|mkfs  128 1
whole|3|mkfs 128 1;tree;mkfs 128 1
whole|2|mkfs 128 1;tree 
whole|2|mkfs 128 1; tree
whole|2|mkfs 128 1;call 9 create /a
whole|2|mkfs 128 1;call 0 create /a
whole|2|mkfs 128 1;call 1 create a
whole|2|mkfs 128 1;call 1 create /a%4
whole|2|mkfs 128 1;call 1 create /a%2f
whole|2|mkfs 128 1;call 1 create /\x7f
whole|2|mkfs 128 1;call 1 write /a
whole|2|mkfs 128 1;call 1 write /a 0 0 1
whole|2|mkfs 128 1;call 1 write /a 0 1 256
whole|2|mkfs 128 1;call 1 write /a 0 1 1 0 1 1 0 1 1 0 1 1 0 1 1 0 1 1 0 1 1 0 1 1 0 1 1
whole|2|mkfs 128 1;call 1 read /a 0 1025
whole|2|mkfs 128 1;begin 1 create /a
whole|2|mkfs 128 1;fail read 0
whole|2|mkfs 128 1;gen 0 50001
plain|3|mkfs 128 1;crash 0;crash 1
plain|2|mkfs 128 1;fail read 1
replay|2|mkfs 128 1;;tree
replay|2|mkfs 128 1;call 1 mkdir /a";

/// The first line of a script that is outside a grammar.
fn first_fault(alloc: Global, grammar: &str, script: &[u8]) -> Option<u32> {
    let grammar = match grammar {
        "plain" => Grammar::Plain,
        "replay" => Grammar::Replay,
        _ => Grammar::Whole,
    };
    match parse(alloc, script, grammar) {
        Err(ScriptFault::Line { line }) => Some(line),
        _ => None,
    }
}

fn is_faulty_as_said(alloc: Global, row: &str) -> Result<bool, AllocError> {
    let mut parts = row.split('|');
    let grammar = parts.next().unwrap_or("");
    let line = parts.next().unwrap_or("").parse().unwrap_or(0);
    let script = lines(alloc, parts.next().unwrap_or(""))?;
    Ok(first_fault(alloc, grammar, script.as_slice()) == Some(line))
}

#[test]
fn names_the_first_line_outside_the_grammar(rt: HostRuntime) -> Result<(), AllocError> {
    for row in FAULTS.lines() {
        assert!(rt; is_faulty_as_said(rt.alloc(), row)?, "{row}");
    }
    Ok(())
}

#[test]
fn refuses_a_script_that_is_too_long(rt: HostRuntime) -> Result<(), AllocError> {
    let bytes = vec![in rt.alloc(); b'a'; 1_048_577]?;
    let lines = vec![in rt.alloc(); b'\n'; 65_537]?;
    for text in [bytes.as_slice(), lines.as_slice()] {
        assert!(rt;
            matches!(
                parse(rt.alloc(), text, Grammar::Whole),
                Err(ScriptFault::TooLong)
            )
        );
    }
    Ok(())
}

/// The calls that are drawn from 12345 on.
const CALLS: &str = "call 1 write /g6 25000 2527 242
call 8 unlink /g4
call 3 create /g2
call 6 write /g6 58000 610 93
call 5 unlink /g1
call 7 write /g2 52000 3662 212
call 4 create /g3
call 7 write /g3 13000 2663 186
call 3 truncate /g6 27000
call 6 fsync /g0
call 8 create /g2
call 2 fsync /g4";

fn draws_calls(alloc: Global) -> Result<bool, AllocError> {
    let mut holds = true;
    let mut x = 12_345;
    for want in CALLS.lines() {
        let (next, seat, request) = next_call(alloc, x)?;
        let text = line_text(alloc, &Line::Call { seat, request })?;
        holds &= text.as_slice() == want.as_bytes();
        x = next;
    }
    Ok(holds)
}

/// Whether a text that was made is this one.
fn is(text: Result<Vec<u8>, AllocError>, want: &[u8]) -> Result<bool, AllocError> {
    Ok(text?.as_slice() == want)
}

fn prints_events(alloc: Global) -> Result<bool, AllocError> {
    let mut holds = is(
        begun_text(alloc, &Begun::Going(Plan::Cp(Reason::Room))),
        b"begun cp room",
    )?;
    holds &= is(step_text(alloc, &Step::Page(923)), b"page 923")?;
    holds &= is(step_text(alloc, &Step::Again(4)), b"again 4")?;
    holds &= is(step_text(alloc, &Step::Replied(Reply::Roll)), b"ok roll")?;
    Ok(holds && tick_text(Tick::WriteFault) == b"writefault".as_slice())
}

fn prints_lines_of_images(alloc: Global) -> Result<bool, AllocError> {
    let mut holds = is(made_text(alloc, 9, 30), b"ok mkfs 9 30")?;
    holds &= is(found_text(alloc, 2), b"ok mount 2")?;
    holds &= is(counted_text(alloc, 3, 2, 1), b"gen 3 2 1")?;
    holds &= mounted_text() == b"mounted".as_slice();
    Ok(holds && unmounted_text() == b"ok unmount".as_slice())
}

/// Whether a reply is printed so.
fn prints(alloc: Global, reply: Reply, want: &[u8]) -> Result<bool, AllocError> {
    is(reply_text(alloc, &reply), want)
}

fn prints_names_and_bytes(alloc: Global) -> Result<bool, AllocError> {
    let mut names = Names::new(alloc);
    names.push(Name::from_slice(alloc, b"a")?)?;
    names.push(Name::from_slice(alloc, b"50%/\x07")?)?;
    let bytes = Bytes::from_slice(alloc, &[7, 255])?;
    let holds = prints(alloc, Reply::Names(names), b"ok a 50%25%2F%07")?;
    Ok(holds && prints(alloc, Reply::Bytes(bytes), b"ok 07ff")?)
}

fn prints_replies(alloc: Global) -> Result<bool, AllocError> {
    let full = Reply::NoSpace {
        space: Space::Node,
        need: 10,
        limit: 9,
    };
    let mut holds = prints(alloc, Reply::Done, b"ok")?;
    holds &= prints(alloc, Reply::Cp(Reason::NameTaken), b"ok cp nametaken")?;
    holds &= prints(alloc, Reply::Busy { by: 1 }, b"busy 1")?;
    Ok(holds && prints(alloc, full, b"nospace node 10 9")?)
}

fn row(alloc: Global, ino: u32, kind: Kind, parent: u32, name: &[u8]) -> Result<Row, AllocError> {
    Ok(Row {
        ino,
        kind,
        parent,
        name: Name::from_slice(alloc, name)?,
        size: 0,
        pages: Pages::new(alloc),
    })
}

fn two_pages(alloc: Global) -> Result<Pages, AllocError> {
    let mut pages = Pages::new(alloc);
    let mut page = [0u8; 4096];
    page[1] = 3;
    pages.put(1, &page)?;
    page[0] = 1;
    pages.put(0, &page)?;
    Ok(pages)
}

fn prints_trees(alloc: Global) -> Result<bool, AllocError> {
    let mut holds = true;
    let mut tree = Tree::new(alloc);
    tree.put(row(alloc, 3, Kind::Directory, 3, b"")?)?;
    let text = tree_text(alloc, &tree)?;
    holds &= text.as_slice() == b"/ dir\n".as_slice();
    let mut file = row(alloc, 4, Kind::Regular, 5, b"50%")?;
    file.size = 4098;
    file.pages = two_pages(alloc)?;
    tree.put(file)?;
    tree.put(row(alloc, 5, Kind::Directory, 3, b"b")?)?;
    tree.put(row(alloc, 6, Kind::Regular, 3, b"a")?)?;
    let text = tree_text(alloc, &tree)?;
    let want = b"/ dir\n/a file 0 0 0\n/b dir\n/b/50%25 file 4098 2 12301\n";
    holds &= text.as_slice() == want.as_slice();
    Ok(holds)
}

#[test]
fn all_of_script(rt: HostRuntime) -> Result<(), AllocError> {
    assert!(rt; draws_calls(rt.alloc())?);
    assert!(rt; prints_events(rt.alloc())?);
    assert!(rt; prints_lines_of_images(rt.alloc())?);
    assert!(rt; prints_names_and_bytes(rt.alloc())?);
    assert!(rt; prints_replies(rt.alloc())?);
    assert!(rt; prints_trees(rt.alloc())?);
    Ok(())
}
