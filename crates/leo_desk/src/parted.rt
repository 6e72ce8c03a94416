//! A value that an owner and numbered guests share by parts.
ghost use Rattle.std.specs.Prelude.{ℕ};

/// A value with a part for its owner and one for each guest.
///
/// Parts may overlap: what lies in two parts is kept by the holders of both. A value lies at the desk
/// only where it is settled, so whoever takes it finds it settled.
pub trait Parted: Drop {
    // What the owner's part of a value is.
    ghost OwnerPart: { Type 0 };

    // What the part of one guest is.
    ghost GuestPart: { Type 0 };

    ghost owner_part: { Self → OwnerPart };

    // The part of the guest with this number.
    ghost guest_part: { ℕ → Self → GuestPart };

    // Whether the value may lie at the desk.
    ghost settled: { Self → Type 0 };
}
