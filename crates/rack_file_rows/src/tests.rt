//! What no contract says: each call with ample memory, and the answers to racks written by hand.
use mind_base::{ImagePlan, Name, RackPlan};
use rack_file::{ImageFault, RackFault, RackRefusal, image_of, rack_of};
use sample_racks::BASE;
use std::alloc::Global;
use std::process::Abort;
use std::test::Fail;

fn word(what: RackFault) -> &'static str {
    match what {
        RackFault::Toml => "toml",
        RackFault::Missing => "missing",
        RackFault::Kind => "kind",
        RackFault::Limit => "limit",
        RackFault::Unknown => "unknown",
        RackFault::Overlap => "overlap",
        RackFault::Unplaced => "unplaced",
        RackFault::Slots => "slots",
    }
}

/// What is answered to this rack: `ok`, or the fault and its path.
fn answer(alloc: Global, rack: &[u8]) -> Result<String, Fail> {
    match rack_of(alloc, rack) {
        Ok(_) => Ok(String::from_str(alloc, "ok")?),
        Err(RackRefusal::NoMemory) => Ok(String::from_str(alloc, "no memory")?),
        Err(RackRefusal::Refused { what, path }) => {
            let place = std::str::from_utf8(path.as_bytes()).ok().ok_or("no text")?;
            Ok(format!(in alloc; "{} {place}", word(what))?)
        }
    }
}

/// A place of the base rack, and what is tried there: what stands in its stead, how many times, and the answer: `ok`, or
/// what stands of the refusal behind `refused rack`.
struct Place {
    text: &'static str,
    tries: &'static [(&'static str, usize, &'static str)],
}

static SETTINGS: [Place; 10] = [
    Place {
        text: "format = 1",
        tries: &[
            ("format = 1", 1, "ok"),
            ("format =", 1, "toml "),
            ("format = 0", 1, "limit format"),
            ("format = 2", 1, "limit format"),
        ],
    },
    Place {
        text: "slots = 4\n",
        tries: &[("", 1, "missing slots")],
    },
    Place {
        text: "slots = 4",
        tries: &[
            ("slots = \"4\"", 1, "kind slots"),
            ("slots = -1", 1, "limit slots"),
            ("slots = 0", 1, "limit slots"),
            ("slots = 1", 1, "ok"),
            ("slots = 4096", 1, "ok"),
            ("slots = 4097", 1, "limit slots"),
        ],
    },
    Place {
        text: "protect = 8",
        tries: &[
            ("protect = 0", 1, "limit protect"),
            ("protect = 1", 1, "slots map"),
            ("protect = 2", 1, "ok"),
            ("protect = 4096", 1, "ok"),
            ("protect = 4097", 1, "limit protect"),
        ],
    },
    Place {
        text: "outliers = 2",
        tries: &[
            ("outliers = 0", 1, "ok"),
            ("outliers = 1024", 1, "ok"),
            ("outliers = 1025", 1, "limit outliers"),
        ],
    },
    Place {
        text: "region = 0",
        tries: &[("region = 9", 1, "ok"), ("region = 10", 1, "limit region")],
    },
    Place {
        text: "region = 0\nmost = 9",
        tries: &[
            ("region = 5\nmost = 5", 1, "ok"),
            ("region = 5\nmost = 4", 1, "limit most"),
        ],
    },
    Place {
        text: "most = 9",
        tries: &[("most = 0", 1, "ok"), ("most = 10", 1, "limit most")],
    },
    Place {
        text: "threshold = 0",
        tries: &[
            ("threshold = 1000000", 1, "ok"),
            ("threshold = 1000001", 1, "limit threshold"),
        ],
    },
    Place {
        text: "format = 1",
        tries: &[
            ("format = 1\npolicy = \"threshold\"", 1, "ok"),
            ("format = 1\npolicy = \"never\"", 1, "limit policy"),
            ("format = 1\npolicy = 1", 1, "kind policy"),
            ("format = 1\ncolor = 1", 1, "unknown top"),
        ],
    },
];

static BLADES: [Place; 4] = [
    Place {
        text: "[[blade]]\nframes = 2\n[[blade]]\nframes = 2\n",
        tries: &[("", 1, "missing blade")],
    },
    Place {
        text: "threshold = 0\n[[blade]]\nframes = 2\n[[blade]]\nframes = 2\n",
        tries: &[
            ("threshold = 0\nblade = 3\n", 1, "kind blade"),
            ("threshold = 0\nblade = []\n", 1, "limit blade"),
            ("threshold = 0\nblade = [1]\n", 1, "kind blade.0"),
        ],
    },
    Place {
        text: "frames = 2",
        tries: &[
            ("frames = 0", 1, "limit blade.0.frames"),
            ("frames = 1", 1, "ok"),
            ("frames = 1024", 1, "ok"),
            ("frames = 1025", 1, "limit blade.0.frames"),
            ("", 1, "missing blade.0.frames"),
            ("frames = 2\ncolor = 1", 1, "unknown blade.0"),
        ],
    },
    Place {
        text: "[[blade]]\nframes = 2\n[[blade]]\nframes = 2\n",
        tries: &[
            ("[[blade]]\nframes = 2\n", 8, "ok"),
            ("[[blade]]\nframes = 2\n", 9, "limit blade"),
        ],
    },
];

static MEMORIES: [Place; 9] = [
    Place {
        text: "[[memory]]\nspare = 4\nhomes = [{ domain = 0, page = 0, pages = 16 }]\n[[memory]]\nspare = 4\nhomes = [{ domain = 0, page = 16, pages = 16 }]\n",
        tries: &[("", 1, "missing memory")],
    },
    Place {
        text: "spare = 4",
        tries: &[
            ("spare = 0", 1, "ok"),
            ("spare = 4096", 1, "ok"),
            ("spare = 4097", 1, "limit memory.0.spare"),
        ],
    },
    Place {
        text: "homes = [{ domain = 0, page = 0, pages = 16 }]",
        tries: &[
            ("", 1, "missing memory.0.homes"),
            ("homes = 1", 1, "kind memory.0.homes"),
            ("homes = []", 1, "limit memory.0.homes"),
        ],
    },
    Place {
        text: "{ domain = 0, page = 0, pages = 16 }",
        tries: &[("1", 1, "kind memory.0.homes.0")],
    },
    Place {
        text: "pages = 16 }",
        tries: &[("pages = 16, at = 1 }", 1, "unknown memory.0.homes.0")],
    },
    Place {
        text: "spare = 4",
        tries: &[("spare = 4\ncolor = 1", 1, "unknown memory.0")],
    },
    Place {
        text: "{ domain = 0, page = 0, pages = 16 }",
        tries: &[(
            "{ domain = 0, page = 0, pages = 16 }, ",
            16,
            "overlap memory.0.homes.1",
        )],
    },
    Place {
        text: "[[memory]]\nspare = 4\nhomes = [{ domain = 0, page = 0, pages = 16 }]\n",
        tries: &[(
            "[[memory]]\nspare = 4\nhomes = [{ domain = 0, page = 0, pages = 16 }]\n",
            7,
            "overlap memory.1.homes.0",
        )],
    },
    Place {
        text: "{ domain = 0, page = 0, pages = 16 }",
        tries: &[
            (
                "{ domain = 0, page = 0, pages = 16 }, { domain = 1, page = 0, pages = 4096 }, { domain = 2, page = 0, pages = 4096 }, { domain = 3, page = 0, pages = 4096 }, { domain = 4, page = 0, pages = 4064 }",
                1,
                "ok",
            ),
            (
                "{ domain = 0, page = 0, pages = 16 }, { domain = 1, page = 0, pages = 4096 }, { domain = 2, page = 0, pages = 4096 }, { domain = 3, page = 0, pages = 4096 }, { domain = 4, page = 0, pages = 4065 }",
                1,
                "limit memory",
            ),
        ],
    },
];

static HOMES: [Place; 1] = [Place {
    text: "domain = 0, page = 16, pages = 16",
    tries: &[
        ("domain = 15, page = 16, pages = 16", 1, "ok"),
        (
            "domain = 16, page = 16, pages = 16",
            1,
            "limit memory.1.homes.0.domain",
        ),
        ("domain = 0, page = 1048575, pages = 1", 1, "ok"),
        (
            "domain = 0, page = 1048575, pages = 2",
            1,
            "limit memory.1.homes.0.pages",
        ),
        (
            "domain = 0, page = 1048576, pages = 1",
            1,
            "limit memory.1.homes.0.page",
        ),
        ("domain = 0, page = 1044480, pages = 4096", 1, "ok"),
        (
            "domain = 0, page = 1044481, pages = 4096",
            1,
            "limit memory.1.homes.0.pages",
        ),
        (
            "domain = 0, page = 16, pages = 0",
            1,
            "limit memory.1.homes.0.pages",
        ),
        ("domain = 0, page = 16, pages = 4096", 1, "ok"),
        (
            "domain = 0, page = 16, pages = 4097",
            1,
            "limit memory.1.homes.0.pages",
        ),
        (
            "domain = 0, page = 15, pages = 1",
            1,
            "overlap memory.1.homes.0",
        ),
        (
            "domain = 0, page = 15, pages = 16",
            1,
            "overlap memory.1.homes.0",
        ),
        ("domain = 1, page = 15, pages = 16", 1, "ok"),
    ],
}];

static IMAGES: [Place; 4] = [
    Place {
        text: "[[image]]\nname = \"a.bin\"\nat = 0\n[[image]]\nname = \"b.bin\"\nat = 0\n",
        tries: &[("", 1, "missing image")],
    },
    Place {
        text: "\"a.bin\"",
        tries: &[
            ("\"\"", 1, "limit image.0.name"),
            ("\"!\"", 1, "ok"),
            ("\"~\"", 1, "ok"),
            ("\"a bin\"", 1, "limit image.0.name"),
            (
                "\"0123456789012345678901234567890123456789012345678901234567890.io\"",
                1,
                "ok",
            ),
            (
                "\"0123456789012345678901234567890123456789012345678901234567890.ion\"",
                1,
                "limit image.0.name",
            ),
            ("1", 1, "kind image.0.name"),
        ],
    },
    Place {
        text: "at = 0",
        tries: &[
            ("at = 4", 1, "ok"),
            ("at = 2", 1, "limit image.0.at"),
            ("at = 4294967292", 1, "ok"),
            ("at = 4294967294", 1, "limit image.0.at"),
            ("at = 4294967296", 1, "limit image.0.at"),
        ],
    },
    Place {
        text: "[[image]]\nname = \"a.bin\"\nat = 0\n",
        tries: &[
            ("[[image]]\nname = \"a.bin\"\nat = 0\n", 15, "ok"),
            ("[[image]]\nname = \"a.bin\"\nat = 0\n", 16, "limit image"),
        ],
    },
];

static THREADS: [Place; 6] = [
    Place {
        text: "[[thread]]\nblade = 0\ndomain = 0\nimage = 0\nqueue = 2\n[[thread]]\nblade = 1\ndomain = 0\nimage = 1\nqueue = 2\n",
        tries: &[("", 1, "missing thread")],
    },
    Place {
        text: "blade = 0",
        tries: &[
            ("blade = 1", 1, "ok"),
            ("blade = 2", 1, "limit thread.0.blade"),
        ],
    },
    Place {
        text: "domain = 0\nimage = 0",
        tries: &[
            ("domain = 15\nimage = 0", 1, "ok"),
            ("domain = 16\nimage = 0", 1, "limit thread.0.domain"),
        ],
    },
    Place {
        text: "image = 0",
        tries: &[
            ("image = 1", 1, "ok"),
            ("image = 2", 1, "limit thread.0.image"),
        ],
    },
    Place {
        text: "queue = 2",
        tries: &[
            ("queue = 0", 1, "limit thread.0.queue"),
            ("queue = 1", 1, "ok"),
            ("queue = 64", 1, "ok"),
            ("queue = 65", 1, "limit thread.0.queue"),
        ],
    },
    Place {
        text: "[[thread]]\nblade = 1\ndomain = 0\nimage = 1\nqueue = 2\n",
        tries: &[
            (
                "[[thread]]\nblade = 1\ndomain = 0\nimage = 1\nqueue = 2\n",
                63,
                "ok",
            ),
            (
                "[[thread]]\nblade = 1\ndomain = 0\nimage = 1\nqueue = 2\n",
                64,
                "limit thread",
            ),
        ],
    },
];

static MAPS: [Place; 6] = [
    Place {
        text: "[[map]]\ndomain = 0\npage = 1\npages = 2\nperm = \"rw\"\n",
        tries: &[("", 1, "ok")],
    },
    Place {
        text: "domain = 0\npage = 1\npages = 2",
        tries: &[
            ("domain = 15\npage = 1\npages = 2", 1, "unplaced map.0"),
            ("domain = 16\npage = 1\npages = 2", 1, "limit map.0.domain"),
            ("domain = 0\npage = 1048575\npages = 1", 1, "unplaced map.0"),
            (
                "domain = 0\npage = 1048576\npages = 1",
                1,
                "limit map.0.page",
            ),
            ("domain = 0\npage = 0\npages = 0", 1, "limit map.0.pages"),
            ("domain = 0\npage = 0\npages = 32", 1, "ok"),
            ("domain = 0\npage = 0\npages = 33", 1, "unplaced map.0"),
            ("domain = 0\npage = 0\npages = 4096", 1, "unplaced map.0"),
            ("domain = 0\npage = 0\npages = 4097", 1, "limit map.0.pages"),
        ],
    },
    Place {
        text: "\"rw\"",
        tries: &[("\"r\"", 1, "ok"), ("\"w\"", 1, "limit map.0.perm")],
    },
    Place {
        text: "perm = \"rw\"",
        tries: &[("perm = \"rw\"\ncolor = 1", 1, "unknown map.0")],
    },
    Place {
        text: "[[map]]\ndomain = 0\npage = 1\npages = 2\nperm = \"rw\"\n",
        tries: &[(
            "[[map]]\ndomain = 0\npage = 1\npages = 2\nperm = \"rw\"\n",
            256,
            "overlap map.1",
        )],
    },
    Place {
        text: "[[map]]",
        tries: &[
            (
                "[[map]]\ndomain = 0\npage = 3\npages = 1\nperm = \"r\"\n[[map]]",
                1,
                "ok",
            ),
            (
                "[[map]]\ndomain = 0\npage = 2\npages = 1\nperm = \"r\"\n[[map]]",
                1,
                "overlap map.1",
            ),
        ],
    },
];

/// Racks with two faults, of which the first is told.
static ORDER: [Place; 6] = [
    Place {
        text: "threshold = 0\n[[blade]]\nframes = 2",
        tries: &[(
            "threshold = 0\ncolor = 1\n[[blade]]\nframes = 0",
            1,
            "unknown top",
        )],
    },
    Place {
        text: "{ domain = 0, page = 0, pages = 16 }",
        tries: &[(
            "{ domain = 0, page = 0, pages = 16 }, ",
            17,
            "limit memory.0.homes",
        )],
    },
    Place {
        text: "[[memory]]\nspare = 4\nhomes = [{ domain = 0, page = 0, pages = 16 }]\n",
        tries: &[(
            "[[memory]]\nspare = 4\nhomes = [{ domain = 0, page = 0, pages = 16 }]\n",
            8,
            "limit memory",
        )],
    },
    Place {
        text: "domain = 0\npage = 1\npages = 2",
        tries: &[(
            "domain = 0\npage = 1048575\npages = 2",
            1,
            "limit map.0.pages",
        )],
    },
    Place {
        text: "[[map]]\ndomain = 0\npage = 1\npages = 2\nperm = \"rw\"\n",
        tries: &[(
            "[[map]]\ndomain = 0\npage = 1\npages = 2\nperm = \"rw\"\n",
            257,
            "limit map",
        )],
    },
    Place {
        text: "frames = 2",
        tries: &[("frames = 0\ncolor = 1", 1, "limit blade.0.frames")],
    },
];

/// The base rack with this text, so many times, at the place.
fn rack_with(alloc: Global, place: &str, text: &str, times: usize) -> Result<String, Fail> {
    let text = text.repeat(alloc, times)?;
    Ok(BASE.replacen(alloc, place, text.as_str(), 1)?)
}

fn judge<R: Abort + AllocGlobal>(rt: &R, place: &Place) -> Result<(), Fail> {
    let alloc = rt.alloc();
    for (text, times, wanted) in place.tries {
        let rack = rack_with(alloc, place.text, text, *times)?;
        let told = answer(alloc, rack.as_bytes())?;
        assert!(rt;
            told.as_str() == *wanted,
            "{} {text} {times}: {told}",
            place.text
        );
    }
    Ok(())
}

fn judge_all<R: Abort + AllocGlobal>(rt: &R, places: &[Place]) -> Result<(), Fail> {
    for place in places {
        judge(rt, place)?;
    }
    Ok(())
}

#[test]
fn settings_and_blades_have_their_keys(rt: HostRuntime) -> Result<(), Fail> {
    judge_all(&rt, &SETTINGS)?;
    judge_all(&rt, &BLADES)
}

#[test]
fn memory_blades_have_homes_that_are_apart(rt: HostRuntime) -> Result<(), Fail> {
    judge_all(&rt, &MEMORIES)?;
    judge_all(&rt, &HOMES)
}

#[test]
fn images_and_threads_have_their_keys(rt: HostRuntime) -> Result<(), Fail> {
    judge_all(&rt, &IMAGES)?;
    judge_all(&rt, &THREADS)
}

#[test]
fn maps_have_homes_and_the_first_fault_is_told(rt: HostRuntime) -> Result<(), Fail> {
    judge_all(&rt, &MAPS)?;
    judge_all(&rt, &ORDER)
}

#[test]
fn bytes_that_are_no_text_are_no_rack(rt: HostRuntime) -> Result<(), Fail> {
    let told = answer(rt.alloc(), b"\xff")?;
    assert_eq!(rt; told.as_str(), "toml ");
    Ok(())
}

/// How many blades, memory blades, images, threads and maps the plan has.
fn counts(plan: &RackPlan) -> [usize; 5] {
    [
        plan.frames.len(),
        plan.memories.len(),
        plan.images.len(),
        plan.threads.len(),
        plan.maps.len(),
    ]
}

#[test]
fn a_rack_is_read(rt: HostRuntime) -> Result<(), Fail> {
    let plan = rack_of(rt.alloc(), BASE.as_bytes()).ok().ok_or("refused")?;
    assert_eq!(rt; (plan.protect, plan.most), (8, 9));
    assert_eq!(rt; counts(&plan), [2, 2, 2, 2, 1]);
    Ok(())
}

/// What is wrong with so many bytes as an image of this plan.
fn image_fault(alloc: Global, plan: &ImagePlan, length: usize) -> Result<Option<ImageFault>, Fail> {
    let bytes = vec![in alloc; 0u8; length]?;
    Ok(image_of(plan, bytes).err())
}

#[test]
fn an_image_has_whole_words(rt: HostRuntime) -> Result<(), Fail> {
    let alloc = rt.alloc();
    let name = Name::of(alloc, "a.bin")?.ok_or("no name")?;
    let plan = ImagePlan {
        name,
        at: 4294967292,
    };
    assert_eq!(rt; image_fault(alloc, &plan, 4)?, None);
    assert_eq!(rt; image_fault(alloc, &plan, 6)?, Some(ImageFault::Length));
    assert_eq!(rt; image_fault(alloc, &plan, 8)?, Some(ImageFault::End));
    Ok(())
}
