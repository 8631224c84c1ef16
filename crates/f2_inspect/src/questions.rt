//! What can be asked of a block.

ghost use Rattle.std.specs.Prelude.{[], ◌∷◌, map, string_bytes, IfSome, IfNone};
ghost use Rattle.f2_inspect.specs.declared.questions.Question.{Question};
ghost use Rattle.f2_inspect.specs.Asked.{IsInBlock, AsksAlone, AsksAt, Asks};

/// The words of a direct or an indirect node.
const WORDS: u16 = 1018;

/// The entries of a block of the node address table.
const ENTRIES: u16 = 455;

/// What is asked of a block.
#[derive(Clone, Copy, Debug, PartialEq, Eq)]
pub enum Question {
    /// The footer of a node.
    Footer,
    /// The inode.
    Inode,
    /// The names of a dentry block.
    Dentry,
    /// The word in this slot of a direct or an indirect node.
    Word { slot: u16 },
    /// The entry at this place of a block of the node address table.
    Nat { place: u16 },
}

impl Question {
    /// What these words ask, or `None` where they are no question or a block has no such slot or place.
    pub fn parse(words: &[String]) -> Option<Question>
        ensures asked { IfSome result (Asks (map string_bytes words.now)) }
        ensures none { IfNone result ((question : Question) → ¬ (Asks (map string_bytes words.now) question)) }
        ensures in_block { IfSome result IsInBlock }
    {
        match words {
            [word] => Question::alone(word.as_str()),
            [word, number] => Question::at(word.as_str(), number.as_str().parse::<u16>().ok()?),
            _ => None,
        }
    }

    /// What a word asks by itself.
    fn alone(word: &str) -> Option<Question>
        ensures asked { IfSome result (AsksAlone word.now) }
        ensures none { IfNone result ((question : Question) → ¬ (AsksAlone word.now question)) }
    {
        match word {
            "footer" => Some(Question::Footer),
            "inode" => Some(Question::Inode),
            "dentry" => Some(Question::Dentry),
            _ => None,
        }
    }

    /// What a word and a number ask.
    fn at(word: &str, number: u16) -> Option<Question>
        ensures asked { IfSome result (AsksAt word.now number) }
        ensures none { IfNone result ((question : Question) → ¬ (AsksAt word.now number question)) }
    {
        match word {
            "word" if number < WORDS => Some(Question::Word { slot: number }),
            "nat" if number < ENTRIES => Some(Question::Nat { place: number }),
            _ => None,
        }
    }
}
