// What is answered where no new file is made of a file.
use lines::RefusedAt;

/// Why no new file was made of a file. docs/OPERATIONS.md: "Moved files" and "Columns".
#[derive(Clone, Copy, Debug, PartialEq, Eq)]
pub enum NotMade {
    /// a refusal of the file with its line, counted from 1
    At(RefusedAt),
    /// 66, which has no line: the new file is longer than the output buffer
    NoRoom,
}

/// A file's refusal and its line, as the answer that no new file was made.
impl From<RefusedAt> for NotMade {
    ghost use Rattle.std.specs.Prelude.{◌≡◌};
    ghost use Rattle.archive.specs.declared.made.NotMade.TheVariants.{At};

    ghost from_gives = { λ refused r. r ≡ At refused };

    fn from(refused: RefusedAt) -> NotMade {
        NotMade::At(refused)
    }
}
