use crate::*;
use std::cmp::Ordering;
use std::fs;
use std::test::Fail;

#[test]
fn places_go_by_module_then_line_then_column(rt: HostRuntime) {
    let place = |module, line, column| Place {
        module,
        line,
        column,
    };
    for (one, other) in [
        (place(0, 9, 9), place(1, 1, 1)),
        (place(1, 1, 9), place(1, 2, 1)),
        (place(1, 2, 1), place(1, 2, 3)),
    ] {
        assert_eq!(rt; one.cmp(&other), Ordering::Less, "{one:?} and {other:?}");
    }
}

#[test]
fn a_source_gives_its_bytes_in_pieces(rt: HostRuntime) -> Result<(), Fail> {
    let bytes = b"hello".to_vec(rt.alloc())?;
    let mut source = MemorySource::new(bytes, 2, vec![in rt.alloc(); 1]?);
    let mut into = [0u8; 4];
    assert_eq!(rt; source.read(&mut into)?, 2);
    assert_eq!(rt; into, *b"he\0\0");
    assert_eq!(rt; source.read(&mut into), Err(Failed));
    assert_eq!(rt; source.read(&mut into)?, 2);
    assert_eq!(rt; source.read(&mut into)?, 1);
    assert_eq!(rt; into, *b"ol\0\0");
    assert_eq!(rt; source.read(&mut into)?, 0);
    Ok(())
}

#[test]
fn a_sink_takes_its_bytes_in_pieces(rt: HostRuntime) -> Result<(), Fail> {
    let mut sink = MemorySink::new(rt.alloc(), 3, vec![in rt.alloc(); 1]?);
    assert_eq!(rt; sink.write(b"hello")?, 3);
    assert_eq!(rt; sink.write(b"lo"), Err(IoRefusal::Failed));
    assert_eq!(rt; sink.write(b"lo")?, 2);
    assert_eq!(rt; sink.bytes(), b"hello".as_slice());
    Ok(())
}

#[test]
fn a_folder_fails_at_each_call_in_turn(rt: HostRuntime) -> Result<(), Fail> {
    let alloc = rt.alloc();
    for fails in 0..3 {
        let mut folder = MemoryFolder::new(alloc, vec![in alloc; fails]?);
        folder.put("old", b"before")?;
        let found = folder.read_file(alloc, "old", 4);
        let missing = folder.read_file(alloc, "new", 4);
        let written = folder.write_file("old", b"after");
        assert_eq!(rt; found == Err(IoRefusal::Failed), fails == 0);
        assert_eq!(rt; missing == Err(IoRefusal::Failed), fails == 1);
        assert_eq!(rt; written == Err(IoRefusal::Failed), fails == 2);
        let left = match written {
            Ok(()) => "after",
            Err(IoRefusal::Failed) => "af",
            Err(IoRefusal::NoMemory) => "before",
        };
        assert_eq!(rt; folder.file("old"), Some(left.as_bytes()));
        assert_eq!(rt; folder.file("new"), None);
    }
    Ok(())
}

#[test]
fn a_source_of_the_system_reads(rt: HostRuntime) -> Result<(), Fail> {
    let mut source = StdSource::new(b"hello".as_slice());
    let mut into = [0u8; 4];
    assert_eq!(rt; source.read(&mut into)?, 4);
    assert_eq!(rt; into, *b"hell");
    Ok(())
}

#[test]
fn a_sink_of_the_system_writes(rt: HostRuntime) -> Result<(), Fail> {
    let mut sink = StdSink::new(rt.stdout());
    assert_eq!(rt; sink.write(b"written\n")?, 8);
    Ok(())
}

#[test]
fn a_real_folder_keeps_what_is_written(rt: HostRuntime) -> Result<(), Fail> {
    let name = "shed_base_test.txt";
    let alloc = rt.alloc();
    let mut folder = RealFolder::new(alloc, rt);
    folder.write_file(name, b"hello")?;
    let front = folder.read_file(alloc, name, 4)?;
    let whole = folder.read_file(alloc, name, 6)?;
    fs::remove_file(&rt, name)?;
    assert_eq!(rt; front, Some(b"hell".to_vec(alloc)?));
    assert_eq!(rt; whole, Some(b"hello".to_vec(alloc)?));
    assert_eq!(rt; folder.read_file(alloc, name, 6)?, None);
    Ok(())
}

#[test]
fn a_text_has_one_name(rt: HostRuntime) -> Result<(), Fail> {
    let mut names = Names::new(rt.alloc())?;
    let name = names.intern("spam")?;
    assert_eq!(rt; names.intern("spam")?, name);
    assert_eq!(rt; names.text(name), Some("spam"));
    assert!(rt; names.intern("eggs")? != name);
    Ok(())
}

#[test]
fn the_special_texts_have_their_names(rt: HostRuntime) -> Result<(), Fail> {
    let mut names = Names::new(rt.alloc())?;
    for (name, text) in [
        (Name::INIT, "__init__"),
        (Name::STR, "__str__"),
        (Name::EQ, "__eq__"),
        (Name::LT, "__lt__"),
        (Name::LEN, "__len__"),
    ] {
        assert_eq!(rt; names.intern(text)?, name);
        assert_eq!(rt; names.text(name), Some(text));
    }
    Ok(())
}

#[test]
fn an_unknown_number_has_no_text(rt: HostRuntime) -> Result<(), Fail> {
    let names = Names::new(rt.alloc())?;
    assert_eq!(rt; names.text(Name(5)), None);
    Ok(())
}
