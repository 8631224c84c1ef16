//! The first words of lines and of calls.
ghost use Rattle.std.specs.Prelude.{◌≡◌};
ghost use Rattle.f2_script.specs.Cuts.{Finds};
ghost use Rattle.f2_script.specs.Verbs.{verb_word, op_word};

/// What a line asks for, by its first word.
#[derive(Clone, Copy, Debug, PartialEq, Eq)]
pub enum Verb {
    Mkfs,
    Call,
    Begin,
    Go,
    Slot,
    End,
    Tick,
    Crash,
    Fail,
    Stop,
    Mount,
    Unmount,
    Tree,
    Gen,
}

/// What a call asks for, by its first word.
#[derive(Clone, Copy, Debug, PartialEq, Eq)]
pub enum Op {
    Create,
    Mkdir,
    Write,
    Truncate,
    Unlink,
    Rmdir,
    Rename,
    Read,
    List,
    Fsync,
    Sync,
}

const VERBS: [Verb; 14] = [
    Verb::Mkfs,
    Verb::Call,
    Verb::Begin,
    Verb::Go,
    Verb::Slot,
    Verb::End,
    Verb::Tick,
    Verb::Crash,
    Verb::Fail,
    Verb::Stop,
    Verb::Mount,
    Verb::Unmount,
    Verb::Tree,
    Verb::Gen,
];

const OPS: [Op; 11] = [
    Op::Create,
    Op::Mkdir,
    Op::Write,
    Op::Truncate,
    Op::Unlink,
    Op::Rmdir,
    Op::Rename,
    Op::Read,
    Op::List,
    Op::Fsync,
    Op::Sync,
];

impl Verb {
    /// The word.
    pub fn word(self) -> &'static [u8]
        ensures { result.now ≡ verb_word self }
    {
        match self {
            Verb::Mkfs => b"mkfs",
            Verb::Call => b"call",
            Verb::Begin => b"begin",
            Verb::Go => b"go",
            Verb::Slot => b"slot",
            Verb::End => b"end",
            Verb::Tick => b"tick",
            Verb::Crash => b"crash",
            Verb::Fail => b"fail",
            Verb::Stop => b"stop",
            Verb::Mount => b"mount",
            Verb::Unmount => b"unmount",
            Verb::Tree => b"tree",
            Verb::Gen => b"gen",
        }
    }

    /// The verb that a word is.
    pub fn of(word: &[u8]) -> Option<Verb>
        ensures { Finds (λ verb. word.now ≡ verb_word verb) result }
    {
        for verb in VERBS {
            if verb.word() == word {
                return Some(verb);
            }
        }
        None
    }
}

impl Op {
    /// The word.
    pub fn word(self) -> &'static [u8]
        ensures { result.now ≡ op_word self }
    {
        match self {
            Op::Create => b"create",
            Op::Mkdir => b"mkdir",
            Op::Write => b"write",
            Op::Truncate => b"truncate",
            Op::Unlink => b"unlink",
            Op::Rmdir => b"rmdir",
            Op::Rename => b"rename",
            Op::Read => b"read",
            Op::List => b"list",
            Op::Fsync => b"fsync",
            Op::Sync => b"sync",
        }
    }

    /// The call that a word asks for.
    pub fn of(word: &[u8]) -> Option<Op>
        ensures { Finds (λ op. word.now ≡ op_word op) result }
    {
        for op in OPS {
            if op.word() == word {
                return Some(op);
            }
        }
        None
    }
}
