//! Words as a system hands them over.
use crate::words;
use std::env::FillError;
use std::process::Abort;
use std::rt::Env;
use std::test::Fail;

/// The bytes that a program was started with, its name first.
#[derive(Drop)]
struct Started {
    words: &'static [&'static [u8]],
}

impl Env for Started {
    fn arg(&self, i: usize, buf: &mut [u8]) -> Result<usize, FillError> {
        if i >= self.words.len() {
            return Err(FillError::NotPresent);
        }
        let word = self.words[i];
        if word.len() > buf.len() {
            return Err(FillError::TooLong);
        }
        buf[..word.len()].copy_from_slice(word);
        Ok(word.len())
    }

    fn var(&self, _name: &str, _buf: &mut [u8]) -> Result<usize, FillError> {
        Err(FillError::NotPresent)
    }

    fn var_at(&self, _i: usize, _buf: &mut [u8]) -> Result<usize, FillError> {
        Err(FillError::NotPresent)
    }
}

#[test]
fn a_word_that_is_no_text_leaves_no_words(rt: HostRuntime) -> Result<(), Fail> {
    let text = Started {
        words: &[b"mind", b"run", b"r\xc3\xa9.toml", b"s.txt"],
    };
    let read = words(&(text, rt.alloc()))?;
    assert!(rt; read.len() == 3);
    assert!(rt; read[1].as_str() == "ré.toml");
    let no_text = Started {
        words: &[b"mind", b"run", b"r\xff.toml", b"s.txt"],
    };
    let read = words(&(no_text, rt.alloc()))?;
    assert!(rt; read.len() == 0);
    Ok(())
}
