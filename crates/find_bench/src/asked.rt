//! What a word of the command line asks for.

/// A family of questions.
#[derive(Clone, Copy, Debug, PartialEq, Eq)]
pub enum Family {
    /// That the first of a chain of variables, each less than the next, is less than the last.
    Chain,
    /// That a variable between as many lower as upper bounds is at most one of these.
    Between,
    /// That some row follows from others, all drawn.
    Random,
}

impl Family {
    pub fn name(self) -> &'static str {
        match self {
            Family::Chain => "chain",
            Family::Between => "between",
            Family::Random => "random",
        }
    }
}

/// A family in a size, and how many times its question is asked.
#[derive(Clone, Copy, Debug, PartialEq, Eq)]
pub struct Asked {
    pub family: Family,
    pub size: u32,
    pub repetitions: u32,
}

fn family_in(word: &str) -> Option<Family> {
    match word {
        "chain" => Some(Family::Chain),
        "between" => Some(Family::Between),
        "random" => Some(Family::Random),
        _ => None,
    }
}

/// What `FAMILY/SIZE/REPETITIONS` asks for.
pub fn asked_in(word: &str) -> Option<Asked> {
    let (family, numbers) = word.split_once('/')?;
    let (size, repetitions) = numbers.split_once('/')?;
    Some(Asked {
        family: family_in(family)?,
        size: size.parse::<u32>().ok()?,
        repetitions: repetitions.parse::<u32>().ok()?,
    })
}
