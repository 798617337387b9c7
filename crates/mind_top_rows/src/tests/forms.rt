//! Words of no form.
use crate::tests::calls::{EMPTY, expect, files_with};
use mind_top::Status;
use std::test::Fail;

/// Words of no form.
struct NoForm {
    words: &'static [&'static str],
}

static NO_FORMS: [NoForm; 19] = [
    NoForm { words: &[] },
    NoForm { words: &["run"] },
    NoForm {
        words: &["run", "r.toml"],
    },
    NoForm {
        words: &["run", "r.toml", "s.txt", "j.txt"],
    },
    NoForm {
        words: &["journal", "r.toml", "s.txt", "j.txt"],
    },
    NoForm {
        words: &["check", "r.toml", "s.txt"],
    },
    NoForm {
        words: &["check", "r.toml", "s.txt", "j.txt", "more"],
    },
    NoForm {
        words: &["runs", "r.toml", "s.txt"],
    },
    NoForm {
        words: &["", "r.toml", "s.txt", "j.txt"],
    },
    NoForm {
        words: &["make", "r.toml", "x", "0"],
    },
    NoForm {
        words: &["make", "r.toml", "0", ""],
    },
    NoForm {
        words: &["make", "r.toml", "3"],
    },
    NoForm {
        words: &["make", "r.toml", "200001", "0"],
    },
    NoForm {
        words: &["load", "r.toml", "0", "4294967296"],
    },
    NoForm {
        words: &["load", "r.toml", "3", "0", "0"],
    },
    NoForm { words: &["asm"] },
    NoForm {
        words: &["asm", "s.txt", "a.bin"],
    },
    NoForm {
        words: &["assemble", "s.txt"],
    },
    NoForm {
        words: &["dis", "a.bin", "s.txt"],
    },
];

const USAGE: &str =
    "usage: mind run RACK SCHEDULE | journal RACK SCHEDULE | check RACK SCHEDULE JOURNAL | make RACK COUNT SEED | load RACK COUNT SEED | asm TEXT | dis IMAGE\n";

#[test]
fn words_of_no_form(rt: HostRuntime) -> Result<(), Fail> {
    for row in &NO_FORMS {
        let files = files_with(rt.alloc(), "", EMPTY)?;
        let _log = expect(&rt, row.words, files, 256, Status::Usage, USAGE)?;
    }
    Ok(())
}
