// Which way a file is moved between editions.
ghost use Rattle.conversion.specs.Theorems.{Known};

// The old edition and the new one, as numbers: an edition is a number everywhere (meter, src/edition.rt).
#[derive(Clone, Copy)]
pub(crate) struct Direction {
    pub(crate) from: u64,
    pub(crate) to: u64,
    ghost known: { Known from to },
}
