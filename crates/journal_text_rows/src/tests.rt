//! Journals written and read.
use journal_text::{JournalFault, JournalRefusal, journal, journal_of};
use mind_base::{Log, Note, Outcome, Page, Range, State};
use std::process::Abort;
use std::test::Fail;

/// The notes are written as the text, and the text is read as the notes.
fn both_ways<R: AllocGlobal + Abort>(rt: &R, notes: &[Note], text: &[u8]) -> Result<(), Fail> {
    let mut log = Log::new(rt.alloc());
    for note in notes {
        log.add(*note)?;
    }
    let written = journal(rt.alloc(), &log)?;
    assert!(rt; written.as_slice() == text);
    assert!(rt; text.len() < 1000);
    let read = journal_of(rt.alloc(), text).ok().ok_or("refused")?;
    assert!(rt; read.len() == notes.len());
    for (i, note) in notes.iter().enumerate() {
        assert!(rt; read.get(i) == *note);
    }
    Ok(())
}

#[test]
fn five_steps_of_one_hart(rt: HostRuntime) -> Result<(), Fail> {
    let mut notes = Vec::new(rt.alloc());
    for index in 0..5u32 {
        notes.push(Note::Event { index })?;
        notes.push(Note::Exec { hart: 0 })?;
    }
    let text = b"mind journal 1\ne 0\nx 0\ne 1\nx 0\ne 2\nx 0\ne 3\nx 0\ne 4\nx 0\n";
    both_ways(&rt, notes.as_slice(), text)
}

const LAST_PAGE: Page = Page {
    domain: 15,
    number: 1048575,
};

fn a_block() -> Range {
    Range {
        domain: 3,
        base: 512,
        log: 9,
    }
}

/// The journal of these notes is their lines behind the heading, and is read as them.
fn line_by_line<R: AllocGlobal + Abort>(rt: &R, rows: &[(Note, &[u8])]) -> Result<(), Fail> {
    let mut notes = Vec::new(rt.alloc());
    let mut text = Vec::from_slice(rt.alloc(), b"mind journal 1\n")?;
    for (note, line) in rows {
        notes.push(*note)?;
        text.extend_from_slice(line)?;
    }
    both_ways(rt, notes.as_slice(), text.as_slice())
}

#[test]
fn notes_of_labels_and_moves(rt: HostRuntime) -> Result<(), Fail> {
    let rows: [(Note, &[u8]); 5] = [
        (Note::Event { index: 999999 }, b"e 999999\n"),
        (Note::Exec { hart: 63 }, b"x 63\n"),
        (Note::Drain { hart: 10 }, b"d 10\n"),
        (Note::Command { index: 7 }, b"c 7\n"),
        (
            Note::Moved {
                index: 8,
                outcome: Outcome::Fine,
            },
            b"m 8 ok\n",
        ),
    ];
    line_by_line(&rt, &rows)
}

#[test]
fn notes_of_blades(rt: HostRuntime) -> Result<(), Fail> {
    let rows: [(Note, &[u8]); 4] = [
        (
            Note::Take {
                blade: 7,
                page: LAST_PAGE,
                writable: true,
            },
            b"t 7 15 1048575 w\n",
        ),
        (
            Note::Take {
                blade: 0,
                page: LAST_PAGE,
                writable: false,
            },
            b"t 0 15 1048575 r\n",
        ),
        (
            Note::Give {
                blade: 1,
                page: LAST_PAGE,
            },
            b"g 1 15 1048575\n",
        ),
        (
            Note::Down {
                blade: 2,
                page: LAST_PAGE,
            },
            b"l 2 15 1048575\n",
        ),
    ];
    line_by_line(&rt, &rows)
}

#[test]
fn notes_of_the_directory(rt: HostRuntime) -> Result<(), Fail> {
    let range = a_block();
    let notes = [
        Note::Region {
            range,
            state: State::I,
        },
        Note::Region {
            range,
            state: State::S { sharers: 255 },
        },
        Note::Region {
            range,
            state: State::M { owner: 7 },
        },
        Note::Gone { range },
        Note::Split { range },
        Note::Merge { range },
    ];
    let text =
        b"mind journal 1\nr 3 512 9 i\nr 3 512 9 s 255\nr 3 512 9 m 7\no 3 512 9\ns 3 512 9\nj 3 512 9\n";
    both_ways(&rt, &notes, text)
}

/// A move's outcome, and its line.
struct Ending {
    outcome: Outcome,
    text: &'static [u8],
}

static ENDINGS: [Ending; 6] = [
    Ending {
        outcome: Outcome::Unplaced,
        text: b"mind journal 1\nm 0 unplaced\n",
    },
    Ending {
        outcome: Outcome::Overlap,
        text: b"mind journal 1\nm 0 overlap\n",
    },
    Ending {
        outcome: Outcome::Unmapped,
        text: b"mind journal 1\nm 0 unmapped\n",
    },
    Ending {
        outcome: Outcome::Slots,
        text: b"mind journal 1\nm 0 slots\n",
    },
    Ending {
        outcome: Outcome::Same,
        text: b"mind journal 1\nm 0 same\n",
    },
    Ending {
        outcome: Outcome::Room,
        text: b"mind journal 1\nm 0 room\n",
    },
];

#[test]
fn each_outcome_of_a_move(rt: HostRuntime) -> Result<(), Fail> {
    for ending in &ENDINGS {
        let notes = [Note::Moved {
            index: 0,
            outcome: ending.outcome,
        }];
        both_ways(&rt, &notes, ending.text)?;
    }
    Ok(())
}

/// A text that is no journal, and the line of its first fault: 1 stands for the heading.
struct Bad {
    text: &'static [u8],
    line: u32,
}

static BAD_JOURNALS: [Bad; 12] = [
    Bad { text: b"", line: 1 },
    Bad {
        text: b"mind journal 1",
        line: 1,
    },
    Bad {
        text: b"mind journal 1\nx 64\n",
        line: 2,
    },
    // The block does not start at a multiple of its size.
    Bad {
        text: b"mind journal 1\ne 0\nr 0 1 1 i\n",
        line: 3,
    },
    // The last line has no end.
    Bad {
        text: b"mind journal 1\ne 0",
        line: 2,
    },
    Bad {
        text: b"mind journal 1\ne 00\n",
        line: 2,
    },
    Bad {
        text: b"mind journal 1\ne  0\n",
        line: 2,
    },
    Bad {
        text: b"mind journal 1\ne 0\r\n",
        line: 2,
    },
    Bad {
        text: b"mind journal 1\n\n",
        line: 2,
    },
    Bad {
        text: b"mind journal 1\ne 1000000\n",
        line: 2,
    },
    // A block that blades share has a sharer.
    Bad {
        text: b"mind journal 1\nr 0 0 0 s 0\n",
        line: 2,
    },
    Bad {
        text: b"mind journal 1\nm 0 waiting\n",
        line: 2,
    },
];

#[test]
fn texts_that_are_no_journal(rt: HostRuntime) -> Result<(), Fail> {
    for bad in &BAD_JOURNALS {
        let what = if bad.line == 1 {
            JournalFault::Head
        } else {
            JournalFault::Line
        };
        let line = bad.line;
        match journal_of(rt.alloc(), bad.text) {
            Ok(_) => return Err(Fail::from("read")),
            Err(refusal) => {
                assert!(rt; refusal == JournalRefusal::Refused { line, what });
            }
        }
    }
    Ok(())
}
