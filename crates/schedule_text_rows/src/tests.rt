//! What no contract says: each call with ample memory, and a table of texts with answers written by hand.
ghost use Rattle.std.specs.Prelude.{◌<◌, ◌^◌, length};
ghost use Rattle.mind_base.specs.Fit.{IsFit};

use mind_base::{Command, Perm, RackPlan, Range, Span};
use sample_racks::{BASE, plan_in};
use schedule_text::{LineRefusal, commands_of, schedule_of};
use std::alloc::Global;
use std::test::Fail;

/// The text of a schedule for the base rack, and the answer: its events, or how many they are where
/// they are more than eight, or what is wrong and in which line.
type Row = (&'static str, &'static str);

static ROWS: [Row; 123] = [
    // lines: their ends, their words and what says nothing
    ("", "[]"),
    ("step 0", "[Step { hart: 0 }]"),
    ("step 0\n", "[Step { hart: 0 }]"),
    ("step 0\r\n", "[Step { hart: 0 }]"),
    (
        "step 0\nstep 1\r\nsettle",
        "[Step { hart: 0 }, Step { hart: 1 }, Settle]",
    ),
    (
        "step 0\r\nepoch\nsettle\r\n",
        "[Step { hart: 0 }, Epoch, Settle]",
    ),
    ("\tstep \t 1\t \n", "[Step { hart: 1 }]"),
    ("  step\t1  ", "[Step { hart: 1 }]"),
    ("\n\r\n \t \n\nepoch\n\n", "[Epoch]"),
    ("# a comment, 9 go\r\n\t #\n#settle\nsettle", "[Settle]"),
    ("# ~ \t", "[]"),
    ("\x01", "Text 1"),
    ("go 0 \x7f", "Text 1"),
    ("step 0\0", "Text 1"),
    ("step\x0b0", "Text 1"),
    ("settle\n# café\n", "Text 2"),
    ("#\u{80}\nsettle", "Text 1"),
    ("step 0\r", "Text 1"),
    ("settle\nstep 0\r", "Text 2"),
    ("step 0\r\r\n", "Text 1"),
    ("# so\r\r\n", "Text 1"),
    ("step\r0\n", "Text 1"),
    ("\r", "Text 1"),
    ("\r\r\n", "Text 1"),
    // the first word, and how many follow it
    ("go 0", "Word 1"),
    ("Step 0", "Word 1"),
    ("ste 0 x", "Word 1"),
    ("step0", "Word 1"),
    ("settle# now", "Word 1"),
    ("step", "Count 1"),
    ("step 0 x", "Count 1"),
    ("epoch 1", "Count 1"),
    ("map 16 1 1", "Count 1"),
    ("settle # now", "Count 1"),
    ("run", "Count 1"),
    ("unmap 0 0 1 r", "Count 1"),
    // numbers, decimal and hexadecimal, in either case
    ("step 0x1", "[Step { hart: 1 }]"),
    ("drain 0x0", "[Drain { hart: 0 }]"),
    (
        "evict 0x1 0xf 0xfFfFf",
        "[Evict { blade: 1, page: Page { domain: 15, number: 1048575 } }]",
    ),
    (
        "evict 0 0xF 0xABCDE",
        "[Evict { blade: 0, page: Page { domain: 15, number: 703710 } }]",
    ),
    (
        "evict 0 0xF 0xabcde",
        "[Evict { blade: 0, page: Page { domain: 15, number: 703710 } }]",
    ),
    ("step x", "Number 1"),
    ("step -1", "Number 1"),
    ("drain 0X1", "Number 1"),
    ("evict 0 0 0x", "Number 1"),
    ("deliver u0 1a", "Number 1"),
    ("map 0 x 1048577 w", "Number 1"),
    ("run 1e3", "Number 1"),
    // each number at its limit, and one past it
    ("step 1", "[Step { hart: 1 }]"),
    ("step 2", "Range 1"),
    ("step 64", "Range 1"),
    ("drain 1", "[Drain { hart: 1 }]"),
    ("drain 2", "Range 1"),
    ("drain 0x100", "Range 1"),
    (
        "evict 1 15 1048575",
        "[Evict { blade: 1, page: Page { domain: 15, number: 1048575 } }]",
    ),
    ("evict 2 0 1", "Range 1"),
    ("evict 0 16 x", "Range 1"),
    ("evict 0 0 1048576", "Range 1"),
    (
        "deliver u0 4294967295",
        "[Deliver { link: LinkName { kind: Up, number: 0 }, side: Messages, k: 4294967295 }]",
    ),
    ("deliver u0 4294967296", "Range 1"),
    (
        "lose d1a 0xFFFFffff",
        "[Lose { link: LinkName { kind: Down, number: 1 }, side: Acks, k: 4294967295 }]",
    ),
    ("lose d1a 0x100000000", "Range 1"),
    (
        "repeat t1a 4294967295",
        "[Repeat { link: LinkName { kind: To, number: 1 }, side: Acks, k: 4294967295 }]",
    ),
    ("repeat t1a 4294967296", "Range 1"),
    ("deliver u0 99999999999999999999999", "Range 1"),
    (
        "map 15 0 1 r",
        "[Ask { command: Map { span: Span { domain: 15, base: 0, pages: 1 }, perm: R } }]",
    ),
    ("map 16 0 1 r", "Range 1"),
    (
        "map 0 1048575 1 rw",
        "[Ask { command: Map { span: Span { domain: 0, base: 1048575, pages: 1 }, perm: Rw } }]",
    ),
    ("map 0 1048576 1 rw", "Range 1"),
    ("map 0 1048575 2 rw", "Range 1"),
    ("map 0 0 0 rw", "Range 1"),
    (
        "map 0 0 4096 rw",
        "[Ask { command: Map { span: Span { domain: 0, base: 0, pages: 4096 }, perm: Rw } }]",
    ),
    ("map 0 0 4097 rw", "Range 1"),
    (
        "unmap 15 1044480 4096",
        "[Ask { command: Unmap { span: Span { domain: 15, base: 1044480, pages: 4096 } } }]",
    ),
    ("unmap 15 1044481 4096", "Range 1"),
    ("unmap 0 0 4097", "Range 1"),
    (
        "protect 15 1048575 1 r",
        "[Ask { command: Protect { span: Span { domain: 15, base: 1048575, pages: 1 }, perm: R } }]",
    ),
    ("protect 0 1048576 1 w", "Range 1"),
    (
        "migrate 0 1048064 9 1",
        "[Ask { command: Migrate { range: Range { domain: 0, log: 9, base: 1048064 }, memory: 1 } }]",
    ),
    ("migrate 0 0 10 0", "Range 1"),
    ("migrate 0 0 0 2", "Range 1"),
    (
        "migrate 15 1048575 0 0",
        "[Ask { command: Migrate { range: Range { domain: 15, log: 0, base: 1048575 }, memory: 0 } }]",
    ),
    ("migrate 16 0 0 0", "Range 1"),
    ("migrate 0 1048576 0 0", "Range 1"),
    ("migrate 0 1 1 0", "Range 1"),
    ("migrate 0 256 9 0", "Range 1"),
    ("run 0", "[]"),
    (
        "run 1",
        "[Step { hart: 0 }, Settle, Drain { hart: 0 }, Settle, Step { hart: 1 }, Settle, Drain { hart: 1 }, Settle]",
    ),
    ("run 3", "24 events"),
    ("run 125000", "1000000 events"),
    ("run 125001", "Events 1"),
    ("run 1000000", "Events 1"),
    ("run 1000001", "Range 1"),
    // wires and links
    (
        "deliver u1 0",
        "[Deliver { link: LinkName { kind: Up, number: 1 }, side: Messages, k: 0 }]",
    ),
    (
        "deliver d0 7",
        "[Deliver { link: LinkName { kind: Down, number: 0 }, side: Messages, k: 7 }]",
    ),
    (
        "repeat f0a 0",
        "[Repeat { link: LinkName { kind: From, number: 0 }, side: Acks, k: 0 }]",
    ),
    (
        "lose t0 1",
        "[Lose { link: LinkName { kind: To, number: 0 }, side: Messages, k: 1 }]",
    ),
    (
        "resend u1",
        "[Resend { link: LinkName { kind: Up, number: 1 } }]",
    ),
    (
        "resend d0",
        "[Resend { link: LinkName { kind: Down, number: 0 } }]",
    ),
    (
        "resend t1",
        "[Resend { link: LinkName { kind: To, number: 1 } }]",
    ),
    (
        "resend f0",
        "[Resend { link: LinkName { kind: From, number: 0 } }]",
    ),
    ("deliver u2 0", "Wire 1"),
    ("repeat t2 0", "Wire 1"),
    ("resend f2", "Wire 1"),
    ("resend d2", "Wire 1"),
    ("deliver u00 0", "Wire 1"),
    ("resend f01", "Wire 1"),
    ("deliver u0x1 0", "Wire 1"),
    ("deliver u 0", "Wire 1"),
    ("deliver a 0", "Wire 1"),
    ("deliver x0 y", "Wire 1"),
    ("lose U0 0", "Wire 1"),
    ("lose u0aa 0", "Wire 1"),
    ("resend u0a", "Wire 1"),
    // permissions
    (
        "protect 0 1 1 rw",
        "[Ask { command: Protect { span: Span { domain: 0, base: 1, pages: 1 }, perm: Rw } }]",
    ),
    ("map 0 1 1 w", "Perm 1"),
    ("protect 0 1 1 RW", "Perm 1"),
    ("map 0 1 1 rwx", "Perm 1"),
    // the first line with a fault counts
    ("run 125000\nsettle", "Events 2"),
    ("settle\nrun 125000", "Events 2"),
    ("step 0\n\n#\nstep 9\ngo\n", "Range 4"),
    ("step 0\r\nstep 1\r\nstep 2", "Range 3"),
    ("settle\nmigrate 0 1 1 9\n", "Range 2"),
];

/// What is answered to this text.
fn answer(alloc: Global, text: &[u8], plan: &RackPlan) -> Result<String, Fail>
    requires fit { IsFit plan.now }
    requires short { length text.now < 2 ^ 32 }
{
    match schedule_of(alloc, text, plan) {
        Ok(events) => if events.len() > 8 {
            Ok(format!(in alloc; "{} events", events.len())?)
        } else {
            Ok(format!(in alloc; "{:?}", events.as_slice())?)
        },
        Err(LineRefusal::Refused { line, what }) => Ok(format!(in alloc; "{what:?} {line}")?),
        Err(LineRefusal::NoMemory) => Ok(format!(in alloc; "no memory")?),
    }
}

#[test]
fn schedules_are_read_or_refused_at_their_first_fault(rt: HostRuntime) -> Result<(), Fail> {
    let alloc = rt.alloc();
    let plan = plan_in(alloc, BASE)?;
    for (text, wanted) in &ROWS {
        assert!(rt; text.len() < 100);
        let told = answer(alloc, text.as_bytes(), &plan)?;
        assert!(rt; told.as_str() == *wanted, "{text}: {told}");
    }
    Ok(())
}

#[test]
fn commands_are_asked_in_order(rt: HostRuntime) -> Result<(), Fail> {
    let alloc = rt.alloc();
    let plan = plan_in(alloc, BASE)?;
    let events = schedule_of(
        alloc,
        b"map 0 1 2 rw\nsettle\nmigrate 0 1048064 9 1\n",
        &plan,
    )?;
    let commands = commands_of(alloc, events.as_slice())?;
    assert_eq!(rt;
        commands.as_slice(),
        [
            Command::Map {
                span: Span {
                    domain: 0,
                    base: 1,
                    pages: 2
                },
                perm: Perm::Rw
            },
            Command::Migrate {
                range: Range {
                    domain: 0,
                    base: 1_048_064,
                    log: 9
                },
                memory: 1
            }
        ]
        .as_slice()
    );
    Ok(())
}
