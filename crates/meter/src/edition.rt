// The editions of a meter and of the file of its readings: which there are, and what each changes.
ghost use Rattle.std.specs.Prelude.{◌≡◌};
ghost use Rattle.meter.specs.Edition.{is_other_edition, keeps_seconds, counts_cold};

use quantity::is_outside;

/// The newest edition: the editions are the numbers from 1 to this one. They are plain numbers, since a meter may hold any number, which 20
/// refuses.
pub const LAST_EDITION: u64 = 3;

/// Whether a number is no edition's (docs/FORMAT.md, "Bytes, lines and numbers"). It is refused with 20 in a meter, and with 60 in a line or a
/// file.
pub fn is_other_edition(edition: u64) -> bool
    ensures { result ≡ is_other_edition edition }
{
    is_outside(edition, 1, LAST_EDITION)
}

/// Whether meters of this edition accept samples whose flow is above qs and keep their seconds, as from edition 2 on; edition 1 refuses such a
/// sample with 39 (docs/FORMAT.md, "Bytes, lines and numbers"). Any number is answered, also one that is no edition's.
pub fn keeps_seconds(edition: u64) -> bool
    ensures { result ≡ keeps_seconds edition }
{
    2 <= edition
}

/// Whether meters of this edition accept samples whose supply is colder than the return and count them as cold, as from edition 3 on; editions 1
/// and 2 refuse such a sample with 36 (docs/FORMAT.md, "Bytes, lines and numbers"). Any number is answered, also one that is no edition's.
pub fn counts_cold(edition: u64) -> bool
    ensures { result ≡ counts_cold edition }
{
    3 <= edition
}
