//! What is set on a node of a syntax tree.
ghost use Rattle.std.specs.Prelude.{⊤, ◌≡◌, ◌-◌, ◌^◌, [], ◌∷◌, codes};
ghost use Rattle.std.specs.Int.RustNames.{bit_and, bit_or, bit_xor};

use bitflags::{Flag, Flags};
use std::ops::{
    BitAnd, BitAndAssign, BitOr, BitOrAssign, BitXor, BitXorAssign, Not, Sub, SubAssign,
};

/// What is set on a node, as a set of bits. The flags are ordered by their bits; `bitflags::Flags` has
/// their further calls.
#[derive(Clone, Copy, Debug, PartialEq, Eq, PartialOrd, Ord)]
pub struct ASTFlags(u8);

impl ASTFlags {
    /// The node is read-only.
    pub const CONSTANT: ASTFlags = ASTFlags(1);

    /// The node is seen from outside.
    pub const EXPORTED: ASTFlags = ASTFlags(2);

    /// The node means the opposite.
    pub const NEGATED: ASTFlags = ASTFlags(4);

    /// The node leaves the normal flow of control.
    pub const BREAK: ASTFlags = ASTFlags(8);

    /// No flags.
    pub const NONE: ASTFlags = ASTFlags(0);

    const FLAGS: &'static [Flag<ASTFlags>] = &[
        Flag {
            name: "CONSTANT",
            value: ASTFlags::CONSTANT,
        },
        Flag {
            name: "EXPORTED",
            value: ASTFlags::EXPORTED,
        },
        Flag {
            name: "NEGATED",
            value: ASTFlags::NEGATED,
        },
        Flag {
            name: "BREAK",
            value: ASTFlags::BREAK,
        },
    ];
}

const _: () = prove!(ASTFlags::NONE.0 == 0);

impl Flags for ASTFlags {
    type Bits = u8;

    ghost exact = { ⊤ };

    ghost table = { (codes "CONSTANT", 1) ∷ (codes "EXPORTED", 2) ∷ (codes "NEGATED", 4) ∷ (codes "BREAK", 8) ∷ [] };

    ghost set_of = { λ f. f.0 };

    fn flags<'a>() -> &'a [Flag<ASTFlags>] {
        ASTFlags::FLAGS
    }

    fn bits(&self) -> u8 {
        self.0
    }

    fn from_bits_retain(bits: u8) -> ASTFlags {
        ASTFlags(bits)
    }
}

impl BitOr for ASTFlags {
    type Output = ASTFlags;

    ghost bitor_gives = { λ a b r. r.0 ≡ bit_or a.0 b.0 };

    fn bitor(self, other: ASTFlags) -> ASTFlags {
        ASTFlags(self.0 | other.0)
    }
}

impl BitOrAssign for ASTFlags {
    ghost bitor_assign_gives = { λ a b r. r.0 ≡ bit_or a.0 b.0 };

    fn bitor_assign(&mut self, other: ASTFlags) {
        self.0 |= other.0;
    }
}

impl BitAnd for ASTFlags {
    type Output = ASTFlags;

    ghost bitand_gives = { λ a b r. r.0 ≡ bit_and a.0 b.0 };

    fn bitand(self, other: ASTFlags) -> ASTFlags {
        ASTFlags(self.0 & other.0)
    }
}

impl BitAndAssign for ASTFlags {
    ghost bitand_assign_gives = { λ a b r. r.0 ≡ bit_and a.0 b.0 };

    fn bitand_assign(&mut self, other: ASTFlags) {
        self.0 &= other.0;
    }
}

impl BitXor for ASTFlags {
    type Output = ASTFlags;

    ghost bitxor_gives = { λ a b r. r.0 ≡ bit_xor a.0 b.0 };

    fn bitxor(self, other: ASTFlags) -> ASTFlags {
        ASTFlags(self.0 ^ other.0)
    }
}

impl BitXorAssign for ASTFlags {
    ghost bitxor_assign_gives = { λ a b r. r.0 ≡ bit_xor a.0 b.0 };

    fn bitxor_assign(&mut self, other: ASTFlags) {
        self.0 ^= other.0;
    }
}

impl Sub for ASTFlags {
    type Output = ASTFlags;

    ghost sub_gives = { λ a b r. r.0 ≡ bit_and a.0 (2 ^ 8 - 1 - b.0) };

    fn sub(self, other: ASTFlags) -> ASTFlags {
        ASTFlags(self.0 & !other.0)
    }
}

impl SubAssign for ASTFlags {
    ghost sub_assign_gives = { λ a b r. r.0 ≡ bit_and a.0 (2 ^ 8 - 1 - b.0) };

    fn sub_assign(&mut self, other: ASTFlags) {
        self.0 &= !other.0;
    }
}

impl Not for ASTFlags {
    type Output = ASTFlags;

    ghost not_gives = { λ a r. r.0 ≡ bit_and (2 ^ 8 - 1 - a.0) 15 };

    fn not(self) -> ASTFlags {
        ASTFlags(!self.0 & 0b1111)
    }
}
