//! The words that the program is started with.

ghost use Rattle.std.specs.Prelude.{◌≡◌, ◌↔◌, ◌≤◌, ℕ, [], ◌∷◌, map, string_bytes, IsTrue, IfSome, MatchOption};
ghost use Rattle.mind_top.specs.Words.{IsNumber};
ghost use Rattle.mind_top.specs.Asked.{IsAskedIn, IsFew};

use mind_base::number;

/// What is written of a run.
#[derive(Clone, Copy)]
pub enum Output {
    Report,
    Journal,
}

/// How many lines are to be drawn, and from which seed.
#[derive(Clone, Copy, Debug)]
pub struct Drawn {
    pub count: u32,
    pub seed: u32,
}

/// What the words ask for, with the names of the files.
pub enum Asked<'a> {
    Run {
        output: Output,
        rack: &'a str,
        schedule: &'a str,
    },
    Check {
        rack: &'a str,
        schedule: &'a str,
        journal: &'a str,
    },
    Make {
        rack: &'a str,
        drawn: Drawn,
    },
    Load {
        rack: &'a str,
        drawn: Drawn,
    },
    Asm {
        text: &'a str,
    },
    Dis {
        image: &'a str,
    },
}

fn is_word(word: &str, name: &str) -> bool
    ensures { IsTrue result ↔ (word.now ≡ name.now) }
{
    word == name
}

/// The number that a word is, up to the limit.
fn number_in(word: &str, limit: u32) -> Option<u32>
    ensures number { MatchOption result ((n : ℕ) → ¬ (IsNumber word.now limit n)) (λ n. IsNumber word.now limit n) }
    ensures within { IfSome result (λ n. n ≤ limit) }
{
    if word.len() > u32::MAX as usize {
        return None;
    }
    match number(word.as_bytes(), u64::from(limit)) {
        Ok(n) => Some(n as u32),
        Err(_) => None,
    }
}

/// The two words that say how many lines are to be drawn, and from which seed.
fn drawn_in(count: &str, seed: &str) -> Option<Drawn>
    ensures { MatchOption result ((n m : ℕ) → IsNumber count.now 200000 n → IsNumber seed.now 4294967295 m → ⊥)
        (λ drawn. IsNumber count.now 200000 drawn.count × IsNumber seed.now 4294967295 drawn.seed × (drawn.count ≤ 200000)) }
{
    let count = match number_in(count, 200_000) {
        Some(count) => count,
        None => return None,
    };
    let seed = match number_in(seed, u32::MAX) {
        Some(seed) => seed,
        None => return None,
    };
    Some(Drawn { count, seed })
}

/// What two words ask for, where they are of a form.
fn asked_by_two<'a>(word: &str, name: &'a str) -> Option<Asked<'a>>
    ensures asked { IsAskedIn (word.now ∷ name.now ∷ []) result }
    ensures few { IfSome result (λ asked. IsFew asked) }
{
    if is_word(word, "asm") {
        Some(Asked::Asm { text: name })
    } else if is_word(word, "dis") {
        Some(Asked::Dis { image: name })
    } else {
        None
    }
}

/// What four words ask for, where they are of a form.
fn asked_by_four<'a>(
    word: &str,
    rack: &'a str,
    third: &'a str,
    fourth: &'a str,
) -> Option<Asked<'a>>
    ensures asked { IsAskedIn (word.now ∷ rack.now ∷ third.now ∷ fourth.now ∷ []) result }
    ensures few { IfSome result (λ asked. IsFew asked) }
{
    if is_word(word, "check") {
        Some(Asked::Check {
            rack,
            schedule: third,
            journal: fourth,
        })
    } else if is_word(word, "make") {
        match drawn_in(third, fourth) {
            Some(drawn) => Some(Asked::Make { rack, drawn }),
            None => None,
        }
    } else if is_word(word, "load") {
        match drawn_in(third, fourth) {
            Some(drawn) => Some(Asked::Load { rack, drawn }),
            None => None,
        }
    } else {
        None
    }
}

/// What the words ask for, where they are of a form.
pub fn asked_of(words: &[String]) -> Option<Asked>
    ensures asked { IsAskedIn (map string_bytes words.now) result }
    ensures few { IfSome result (λ asked. IsFew asked) }
{
    match words {
        [word, name] => asked_by_two(word.as_str(), name.as_str()),
        [word, rack, schedule] => if is_word(word.as_str(), "run") {
            Some(Asked::Run {
                output: Output::Report,
                rack: rack.as_str(),
                schedule: schedule.as_str(),
            })
        } else if is_word(word.as_str(), "journal") {
            Some(Asked::Run {
                output: Output::Journal,
                rack: rack.as_str(),
                schedule: schedule.as_str(),
            })
        } else {
            None
        },
        [word, rack, third, fourth] => {
            asked_by_four(
                word.as_str(),
                rack.as_str(),
                third.as_str(),
                fourth.as_str(),
            )
        }
        [] => None,
        [_] => None,
        [_, _, _, _, _, ..] => None,
    }
}
