//! The name of a file: 1 to 64 printing bytes.

ghost use Rattle.std.specs.Prelude.{◌≡◌, IfOk, string_bytes};
ghost use Rattle.mind_base.specs.Name.{name_of, each_prints, is_name};

use crate::NoMemory;
use std::alloc::Global;
use std::marker::Model;

/// The name of a file: a text of 1 to 64 bytes, each from 0x21 to 0x7E. Contracts see its bytes.
#[derive(Debug, Drop)]
pub struct Name {
    text: String,
}

impl Model for Name {
    ghost use Rattle.std.specs.Prelude.{ℕ, List, string_bytes, ◌≡◌, true};
    ghost use Rattle.mind_base.specs.Name.{is_name};

    ghost Value = { List ℕ };

    ghost view = { λ n. string_bytes n.text };

    ghost invariant = { λ n. is_name (string_bytes n.text) ≡ true };
}

impl Name {
    /// The text as a name; None exactly where it is none.
    pub fn of(alloc: Global, text: &str) -> Result<Option<Name>, NoMemory>
        ensures { IfOk result (λ name. name ≡ name_of text.now) }
    {
        if !is_name_text(text.as_bytes()) {
            return Ok(None);
        }
        let text = String::from_str(alloc, text)?;
        Ok(Some(Name { text }))
    }

    pub fn as_str(&self) -> &str
        ensures { result.now ≡ self.now }
    {
        self.text.as_str()
    }

    /// An equal name.
    pub fn copy(&self, alloc: Global) -> Result<Name, NoMemory>
        ensures { IfOk result (λ name. name ≡ self.now) }
    {
        let text = String::from_str(alloc, self.text.as_str())?;
        Ok(Name { text })
    }
}

fn prints(bytes: &[u8]) -> bool
    ensures { result ≡ each_prints bytes.now }
{
    bytes.iter().all(|b| *b >= 0x21 && *b <= 0x7e)
}

fn is_name_text(bytes: &[u8]) -> bool
    ensures { result ≡ is_name bytes.now }
{
    !bytes.is_empty() && bytes.len() <= 64 && prints(bytes)
}
