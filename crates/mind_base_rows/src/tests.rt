//! What no contract says: real files and real output, and each call with ample memory.
use mind_base::{
    DirStore, Duplicate, Image, ImagePlan, Log, MemSink, MemStore, MemoryPlan, Name, Note,
    NumberFault, OutSink, Page, Place, PolicyKind, RackPlan, Range, ReadError, Sequence, Sink,
    Span, Store, ThreadPlan, WriteError, number,
};
use std::fs;
use std::test::Fail;

fn name_of(rt: &HostRuntime, text: &str) -> Result<Name, Fail> {
    Ok(Name::of(rt.alloc(), text)?.ok_or("no name")?)
}

#[test]
fn names_are_texts_of_printing_bytes(rt: HostRuntime) -> Result<(), Fail> {
    let alloc = rt.alloc();
    let long = String::from_utf8(vec![in alloc; b'a'; 64]?)?;
    for text in ["a.bin", "!", "~", long.as_str()] {
        assert_eq!(rt; name_of(&rt, text)?.as_str(), text);
    }
    let longer = String::from_utf8(vec![in alloc; b'a'; 65]?)?;
    for text in ["", "a b", "\u{7f}", "caf\u{e9}", longer.as_str()] {
        assert!(rt; Name::of(alloc, text)?.is_none(), "{text}");
    }
    Ok(())
}

#[test]
fn pages_blocks_and_runs(rt: HostRuntime) -> Result<(), Fail> {
    let page = Page::of(3, 0x0000_2fff);
    assert_eq!(rt;
        page,
        Page {
            domain: 3,
            number: 2
        }
    );
    let span = Span {
        domain: 3,
        base: 1,
        pages: 2,
    };
    assert!(rt; span.has(page));
    assert!(rt;
        !span.has(Page {
            domain: 3,
            number: 3
        })
    );
    let block = Range {
        domain: 3,
        base: 4,
        log: 2,
    };
    assert!(rt;
        block.has(Page {
            domain: 3,
            number: 7
        })
    );
    assert!(rt;
        !block.has(Page {
            domain: 3,
            number: 8
        })
    );
    let (lower, upper) = block.halves().ok_or("one page")?;
    assert_eq!(rt;
        lower,
        Range {
            domain: 3,
            base: 4,
            log: 1
        }
    );
    assert_eq!(rt;
        upper,
        Range {
            domain: 3,
            base: 6,
            log: 1
        }
    );
    assert_eq!(rt;
        block.parent().ok_or("no parent")?,
        Range {
            domain: 3,
            base: 0,
            log: 3
        }
    );
    Ok(())
}

#[test]
fn a_log_keeps_its_notes_in_order(rt: HostRuntime) -> Result<(), Fail> {
    let mut log = Log::new(rt.alloc());
    log.add(Note::Event { index: 0 })?;
    log.reserve(3)?;
    log.add(Note::Exec { hart: 5 })?;
    assert_eq!(rt; log.len(), 2);
    assert_eq!(rt; log.get(0), Note::Event { index: 0 });
    assert_eq!(rt; log.get(1), Note::Exec { hart: 5 });
    log.truncate(1);
    assert_eq!(rt; log.len(), 1);
    assert_eq!(rt; log.get(0), Note::Event { index: 0 });
    Ok(())
}

#[test]
fn copies_are_equal(rt: HostRuntime) -> Result<(), Fail> {
    let alloc = rt.alloc();
    let homes = Sequence::from_vec(vec![in alloc;
        Span {
            domain: 0,
            base: 0,
            pages: 16
        },
    ]?);
    let memories = Sequence::from_vec(vec![in alloc; MemoryPlan { homes, spare: 4 }]?);
    let images = Sequence::from_vec(vec![in alloc;
        ImagePlan {
            name: name_of(&rt, "a.bin")?,
            at: 8
        },
    ]?);
    let threads = Sequence::from_vec(vec![in alloc;
        ThreadPlan {
            blade: 0,
            domain: 0,
            image: 0,
            queue: 2
        },
    ]?);
    let plan = RackPlan {
        slots: 4,
        protect: 8,
        outliers: 2,
        region: 0,
        most: 9,
        threshold: 0,
        policy: PolicyKind::Threshold,
        frames: Sequence::from_vec(vec![in alloc; 2]?),
        memories,
        images,
        threads,
        maps: Sequence::new(alloc),
    };
    let copy = plan.copy(alloc)?;
    assert_eq!(rt; copy.threads.as_slice(), plan.threads.as_slice());
    assert_eq!(rt; copy.images.len(), 1);
    let image = Image {
        at: 8,
        bytes: Sequence::from_vec(vec![in alloc; 1, 2, 3, 4]?),
    };
    assert_eq!(rt;
        image.copy(alloc)?.bytes.into_vec().as_slice(),
        [1, 2, 3, 4].as_slice()
    );
    Ok(())
}

#[test]
fn files_in_memory(rt: HostRuntime) -> Result<(), Fail> {
    let alloc = rt.alloc();
    let mut files = Vec::new(alloc);
    files.push((name_of(&rt, "r.toml")?, vec![in alloc; 1, 2]?))?;
    files.push((name_of(&rt, "r.toml")?, vec![in alloc; 3]?))?;
    let mut store = MemStore::new(files, vec![in alloc; 2]?);
    assert_eq!(rt;
        store.read_all(alloc, "r.toml", 2)?.as_slice(),
        [1, 2].as_slice()
    );
    assert_eq!(rt;
        store.read_all(alloc, "r.toml", 1).err(),
        Some(ReadError::TooLong { read: 2 })
    );
    assert_eq!(rt;
        store.read_all(alloc, "r.toml", 2).err(),
        Some(ReadError::Failed)
    );
    assert_eq!(rt;
        store.read_all(alloc, "s.txt", 2).err(),
        Some(ReadError::Failed)
    );
    assert_eq!(rt;
        store.read_all(alloc, "r.toml", 2)?.as_slice(),
        [1, 2].as_slice()
    );
    Ok(())
}

#[test]
fn bytes_in_memory(rt: HostRuntime) -> Result<(), Fail> {
    let mut sink = MemSink::new(rt.alloc(), 5)?;
    assert!(rt; sink.write_all(b"min").is_ok());
    assert_eq!(rt; sink.write_all(b"d 1").err(), Some(WriteError::Failed));
    assert_eq!(rt; sink.written(), b"mind ".as_slice());
    Ok(())
}

#[test]
fn files_of_the_folder(rt: HostRuntime) -> Result<(), Fail> {
    let alloc = rt.alloc();
    let folder = std::env::temp_dir(&rt)?;
    let path = folder.as_path().join(alloc, "mind_base_reads_this.txt")?;
    fs::write(&rt, path.as_path(), "a rack")?;
    let name = path.as_path().to_str().ok_or("no text")?;
    let mut store = DirStore::new(&rt);
    assert_eq!(rt;
        store.read_all(alloc, name, 6)?.as_slice(),
        b"a rack".as_slice()
    );
    assert_eq!(rt;
        store.read_all(alloc, name, 5).err(),
        Some(ReadError::TooLong { read: 6 })
    );
    assert_eq!(rt;
        store.read_all(alloc, "no such file", 5).err(),
        Some(ReadError::Failed)
    );
    fs::remove_file(&rt, path.as_path())?;
    Ok(())
}

#[test]
fn standard_output_takes_bytes(rt: HostRuntime) {
    let mut sink = OutSink::new(&rt);
    assert!(rt; sink.write_all(b"mind 1\n").is_ok());
}

#[test]
fn numbers_of_texts(rt: HostRuntime) {
    let good: [(&[u8], u64, u64); 9] = [
        (b"0", 0, 0),
        (b"007", 7, 7),
        (b"1000000", 1_000_000, 1_000_000),
        (b"0x10", 16, 16),
        (b"0xaF09", 44809, 44809),
        (b"0x00000000000000000000000001", 1, 1),
        (b"4294967295", 4_294_967_295, 4_294_967_295),
        (b"18446744073709551615", u64::MAX, u64::MAX),
        (b"0xFFFFffffFFFFffff", u64::MAX, u64::MAX),
    ];
    for (text, limit, value) in good {
        assert!(rt; number(text, limit) == Ok(value));
    }
    let malformed: [(&[u8], u32); 11] = [
        (b"", 0),
        (b"x", 0),
        (b" 1", 0),
        (b"-1", 0),
        (b"12a", 2),
        (b"0X1", 1),
        (b"00x1", 2),
        (b"0x", 2),
        (b"0xg", 2),
        (b"0x1G2", 3),
        (b"99999999999999999999999999999z", 29),
    ];
    for (text, at) in malformed {
        assert!(rt; number(text, 9) == Err(NumberFault::NotANumber { at }));
    }
    let large: [(&[u8], u64, u32); 7] = [
        (b"1", 0, 0),
        (b"64", 63, 1),
        (b"1000001", 1_000_000, 6),
        (b"0x11", 16, 3),
        (b"4294967296", 4_294_967_295, 9),
        (b"18446744073709551616", u64::MAX, 19),
        (b"0x10000000000000000000", u64::MAX, 18),
    ];
    for (text, limit, at) in large {
        assert!(rt; number(text, limit) == Err(NumberFault::TooLarge { at }));
    }
}

#[test]
fn a_byte_lies_in_its_page_and_its_granule(rt: HostRuntime) {
    let place = Place::of(2, 0x1044);
    assert_eq!(rt;
        place.page(),
        Page {
            domain: 2,
            number: 1
        }
    );
    assert_eq!(rt; place.offset(), 0x44);
    let granule = place.granule();
    assert_eq!(rt; granule.number, 65);
    assert_eq!(rt; granule.page(), place.page());
    assert_eq!(rt; granule.index_in_page(), 1);
}
