//! Texts of instructions and images.
use crate::tests::calls::{PUTS_A, expect};
use mind_top::Status;
use sample_runs::{Files, written};
use std::process::Abort;
use std::test::Fail;

const ASM: [&str; 2] = ["asm", "t.s"];

const DIS: [&str; 2] = ["dis", "a.bin"];

/// A text, and its image.
struct Assembled {
    text: &'static str,
    image: &'static [u8],
}

static ASSEMBLED: [Assembled; 2] = [
    Assembled {
        text: "lui t0, 1\nlr.w t2, (t0)\nsc.w a0, t2, (t0)\naddi a7, zero, 1\necall\n",
        image: b"\xb7\x12\x00\x00\xaf\xa3\x02\x10\x2f\xa5\x72\x18\x93\x08\x10\x00\x73\x00\x00\x00",
    },
    Assembled {
        text: "loop: bne x8, x0, loop",
        image: b"\x63\x10\x04\x00",
    },
];

/// What is read under a name, and the line that refuses it.
struct Refused {
    words: &'static [&'static str],
    bytes: &'static str,
    line: &'static str,
}

static REFUSED: [Refused; 6] = [
    Refused {
        words: &ASM,
        bytes: "addi x1, x0, 2048",
        line: "refused text range 1\n",
    },
    Refused {
        words: &ASM,
        bytes: "jal x0, on",
        line: "refused text target 1\n",
    },
    // Names are in lower case.
    Refused {
        words: &ASM,
        bytes: "ecall\nADDI x1, x0, 1\n",
        line: "refused text word 2\n",
    },
    Refused {
        words: &ASM,
        bytes: "# no item\n",
        line: "refused text empty\n",
    },
    Refused {
        words: &DIS,
        bytes: "",
        line: "refused image length 0\n",
    },
    Refused {
        words: &DIS,
        bytes: "six by",
        line: "refused image length 0\n",
    },
];

#[test]
fn texts_become_images(rt: HostRuntime) -> Result<(), Fail> {
    for row in &ASSEMBLED {
        let mut files = Files::new(rt.alloc());
        files.put("t.s", row.text.as_bytes())?;
        let image = written(rt.alloc(), &ASM, files)?;
        assert!(rt; image.as_slice() == row.image, "{}", row.text);
    }
    Ok(())
}

#[test]
fn an_image_becomes_a_text(rt: HostRuntime) -> Result<(), Fail> {
    let mut files = Files::new(rt.alloc());
    files.put("a.bin", PUTS_A)?;
    let text =
        "addi x10, x0, 65\naddi x17, x0, 1\necall\naddi x10, x0, 0\naddi x17, x0, 2\necall\n";
    let _log = expect(&rt, &DIS, files, 256, Status::Done, text)?;
    Ok(())
}

#[test]
fn what_is_no_text_and_no_image(rt: HostRuntime) -> Result<(), Fail> {
    for row in &REFUSED {
        let name = row.words.last().ok_or("no name")?;
        let mut files = Files::new(rt.alloc());
        files.put(name, row.bytes.as_bytes())?;
        let _log = expect(&rt, row.words, files, 256, Status::Malformed, row.line)?;
    }
    Ok(())
}

#[test]
fn a_text_that_is_missing(rt: HostRuntime) -> Result<(), Fail> {
    let files = Files::new(rt.alloc());
    let _log = expect(&rt, &ASM, files, 256, Status::ReadFault, "")?;
    Ok(())
}
