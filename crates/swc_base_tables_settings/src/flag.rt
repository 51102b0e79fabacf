//! Sets of features.

ghost use Rattle.std.specs.Prelude.{⊤, ◌≡◌};
ghost use Rattle.std.specs.Int.RustNames.{bit_and, bit_or, bit_xor};
ghost use Rattle.bitflags.specs.Sets.{known_bits, without};
ghost use Rattle.swc_base_tables_settings.specs.Features.{table};

use bitflags::{Flag, Flags};
use std::ops::{
    BitAnd, BitAndAssign, BitOr, BitOrAssign, BitXor, BitXorAssign, Not, Sub, SubAssign,
};

/// A set of features of the language: the number that has a 1 at the bit of each.
#[derive(Clone, Copy, Default)]
pub struct FeatureFlag {
    pub bits: u64,
}

impl FeatureFlag {
    pub const TemplateLiterals: FeatureFlag = FeatureFlag { bits: 1 << 0 };

    pub const Literals: FeatureFlag = FeatureFlag { bits: 1 << 1 };

    pub const FunctionName: FeatureFlag = FeatureFlag { bits: 1 << 2 };

    pub const ArrowFunctions: FeatureFlag = FeatureFlag { bits: 1 << 3 };

    pub const BlockScopedFunctions: FeatureFlag = FeatureFlag { bits: 1 << 4 };

    pub const Classes: FeatureFlag = FeatureFlag { bits: 1 << 5 };

    pub const ObjectSuper: FeatureFlag = FeatureFlag { bits: 1 << 6 };

    pub const ShorthandProperties: FeatureFlag = FeatureFlag { bits: 1 << 7 };

    pub const DuplicateKeys: FeatureFlag = FeatureFlag { bits: 1 << 8 };

    pub const ComputedProperties: FeatureFlag = FeatureFlag { bits: 1 << 9 };

    pub const ForOf: FeatureFlag = FeatureFlag { bits: 1 << 10 };

    pub const StickyRegex: FeatureFlag = FeatureFlag { bits: 1 << 11 };

    pub const DotAllRegex: FeatureFlag = FeatureFlag { bits: 1 << 12 };

    pub const UnicodeRegex: FeatureFlag = FeatureFlag { bits: 1 << 13 };

    pub const Spread: FeatureFlag = FeatureFlag { bits: 1 << 14 };

    pub const Parameters: FeatureFlag = FeatureFlag { bits: 1 << 15 };

    pub const Destructuring: FeatureFlag = FeatureFlag { bits: 1 << 16 };

    pub const BlockScoping: FeatureFlag = FeatureFlag { bits: 1 << 17 };

    pub const TypeOfSymbol: FeatureFlag = FeatureFlag { bits: 1 << 18 };

    pub const NewTarget: FeatureFlag = FeatureFlag { bits: 1 << 19 };

    pub const Regenerator: FeatureFlag = FeatureFlag { bits: 1 << 20 };

    pub const ExponentiationOperator: FeatureFlag = FeatureFlag { bits: 1 << 21 };

    pub const AsyncToGenerator: FeatureFlag = FeatureFlag { bits: 1 << 22 };

    pub const AsyncGeneratorFunctions: FeatureFlag = FeatureFlag { bits: 1 << 23 };

    pub const ObjectRestSpread: FeatureFlag = FeatureFlag { bits: 1 << 24 };

    pub const UnicodePropertyRegex: FeatureFlag = FeatureFlag { bits: 1 << 25 };

    pub const JsonStrings: FeatureFlag = FeatureFlag { bits: 1 << 26 };

    pub const OptionalCatchBinding: FeatureFlag = FeatureFlag { bits: 1 << 27 };

    pub const NamedCapturingGroupsRegex: FeatureFlag = FeatureFlag { bits: 1 << 28 };

    pub const MemberExpressionLiterals: FeatureFlag = FeatureFlag { bits: 1 << 29 };

    pub const PropertyLiterals: FeatureFlag = FeatureFlag { bits: 1 << 30 };

    pub const ReservedWords: FeatureFlag = FeatureFlag { bits: 1 << 31 };

    pub const ExportNamespaceFrom: FeatureFlag = FeatureFlag { bits: 1 << 32 };

    pub const NullishCoalescing: FeatureFlag = FeatureFlag { bits: 1 << 33 };

    pub const LogicalAssignmentOperators: FeatureFlag = FeatureFlag { bits: 1 << 34 };

    pub const OptionalChaining: FeatureFlag = FeatureFlag { bits: 1 << 35 };

    pub const ClassProperties: FeatureFlag = FeatureFlag { bits: 1 << 36 };

    pub const NumericSeparator: FeatureFlag = FeatureFlag { bits: 1 << 37 };

    pub const PrivateMethods: FeatureFlag = FeatureFlag { bits: 1 << 38 };

    pub const ClassStaticBlock: FeatureFlag = FeatureFlag { bits: 1 << 39 };

    pub const PrivatePropertyInObject: FeatureFlag = FeatureFlag { bits: 1 << 40 };

    pub const UnicodeEscapes: FeatureFlag = FeatureFlag { bits: 1 << 41 };

    pub const BugfixAsyncArrowsInClass: FeatureFlag = FeatureFlag { bits: 1 << 42 };

    pub const BugfixEdgeDefaultParam: FeatureFlag = FeatureFlag { bits: 1 << 43 };

    pub const BugfixTaggedTemplateCaching: FeatureFlag = FeatureFlag { bits: 1 << 44 };

    pub const BugfixSafariIdDestructuringCollisionInFunctionExpression: FeatureFlag = FeatureFlag {
        bits: 1 << 45,
    };

    pub const BugfixTransformEdgeFunctionName: FeatureFlag = FeatureFlag { bits: 1 << 46 };

    pub const BugfixTransformSafariBlockShadowing: FeatureFlag = FeatureFlag { bits: 1 << 47 };

    pub const BugfixTransformSafariForShadowing: FeatureFlag = FeatureFlag { bits: 1 << 48 };

    pub const BugfixTransformV8SpreadParametersInOptionalChaining: FeatureFlag = FeatureFlag {
        bits: 1 << 49,
    };

    const FLAGS: &'static [Flag<FeatureFlag>] = &[
        Flag {
            name: "TemplateLiterals",
            value: FeatureFlag::TemplateLiterals,
        },
        Flag {
            name: "Literals",
            value: FeatureFlag::Literals,
        },
        Flag {
            name: "FunctionName",
            value: FeatureFlag::FunctionName,
        },
        Flag {
            name: "ArrowFunctions",
            value: FeatureFlag::ArrowFunctions,
        },
        Flag {
            name: "BlockScopedFunctions",
            value: FeatureFlag::BlockScopedFunctions,
        },
        Flag {
            name: "Classes",
            value: FeatureFlag::Classes,
        },
        Flag {
            name: "ObjectSuper",
            value: FeatureFlag::ObjectSuper,
        },
        Flag {
            name: "ShorthandProperties",
            value: FeatureFlag::ShorthandProperties,
        },
        Flag {
            name: "DuplicateKeys",
            value: FeatureFlag::DuplicateKeys,
        },
        Flag {
            name: "ComputedProperties",
            value: FeatureFlag::ComputedProperties,
        },
        Flag {
            name: "ForOf",
            value: FeatureFlag::ForOf,
        },
        Flag {
            name: "StickyRegex",
            value: FeatureFlag::StickyRegex,
        },
        Flag {
            name: "DotAllRegex",
            value: FeatureFlag::DotAllRegex,
        },
        Flag {
            name: "UnicodeRegex",
            value: FeatureFlag::UnicodeRegex,
        },
        Flag {
            name: "Spread",
            value: FeatureFlag::Spread,
        },
        Flag {
            name: "Parameters",
            value: FeatureFlag::Parameters,
        },
        Flag {
            name: "Destructuring",
            value: FeatureFlag::Destructuring,
        },
        Flag {
            name: "BlockScoping",
            value: FeatureFlag::BlockScoping,
        },
        Flag {
            name: "TypeOfSymbol",
            value: FeatureFlag::TypeOfSymbol,
        },
        Flag {
            name: "NewTarget",
            value: FeatureFlag::NewTarget,
        },
        Flag {
            name: "Regenerator",
            value: FeatureFlag::Regenerator,
        },
        Flag {
            name: "ExponentiationOperator",
            value: FeatureFlag::ExponentiationOperator,
        },
        Flag {
            name: "AsyncToGenerator",
            value: FeatureFlag::AsyncToGenerator,
        },
        Flag {
            name: "AsyncGeneratorFunctions",
            value: FeatureFlag::AsyncGeneratorFunctions,
        },
        Flag {
            name: "ObjectRestSpread",
            value: FeatureFlag::ObjectRestSpread,
        },
        Flag {
            name: "UnicodePropertyRegex",
            value: FeatureFlag::UnicodePropertyRegex,
        },
        Flag {
            name: "JsonStrings",
            value: FeatureFlag::JsonStrings,
        },
        Flag {
            name: "OptionalCatchBinding",
            value: FeatureFlag::OptionalCatchBinding,
        },
        Flag {
            name: "NamedCapturingGroupsRegex",
            value: FeatureFlag::NamedCapturingGroupsRegex,
        },
        Flag {
            name: "MemberExpressionLiterals",
            value: FeatureFlag::MemberExpressionLiterals,
        },
        Flag {
            name: "PropertyLiterals",
            value: FeatureFlag::PropertyLiterals,
        },
        Flag {
            name: "ReservedWords",
            value: FeatureFlag::ReservedWords,
        },
        Flag {
            name: "ExportNamespaceFrom",
            value: FeatureFlag::ExportNamespaceFrom,
        },
        Flag {
            name: "NullishCoalescing",
            value: FeatureFlag::NullishCoalescing,
        },
        Flag {
            name: "LogicalAssignmentOperators",
            value: FeatureFlag::LogicalAssignmentOperators,
        },
        Flag {
            name: "OptionalChaining",
            value: FeatureFlag::OptionalChaining,
        },
        Flag {
            name: "ClassProperties",
            value: FeatureFlag::ClassProperties,
        },
        Flag {
            name: "NumericSeparator",
            value: FeatureFlag::NumericSeparator,
        },
        Flag {
            name: "PrivateMethods",
            value: FeatureFlag::PrivateMethods,
        },
        Flag {
            name: "ClassStaticBlock",
            value: FeatureFlag::ClassStaticBlock,
        },
        Flag {
            name: "PrivatePropertyInObject",
            value: FeatureFlag::PrivatePropertyInObject,
        },
        Flag {
            name: "UnicodeEscapes",
            value: FeatureFlag::UnicodeEscapes,
        },
        Flag {
            name: "BugfixAsyncArrowsInClass",
            value: FeatureFlag::BugfixAsyncArrowsInClass,
        },
        Flag {
            name: "BugfixEdgeDefaultParam",
            value: FeatureFlag::BugfixEdgeDefaultParam,
        },
        Flag {
            name: "BugfixTaggedTemplateCaching",
            value: FeatureFlag::BugfixTaggedTemplateCaching,
        },
        Flag {
            name: "BugfixSafariIdDestructuringCollisionInFunctionExpression",
            value: FeatureFlag::BugfixSafariIdDestructuringCollisionInFunctionExpression,
        },
        Flag {
            name: "BugfixTransformEdgeFunctionName",
            value: FeatureFlag::BugfixTransformEdgeFunctionName,
        },
        Flag {
            name: "BugfixTransformSafariBlockShadowing",
            value: FeatureFlag::BugfixTransformSafariBlockShadowing,
        },
        Flag {
            name: "BugfixTransformSafariForShadowing",
            value: FeatureFlag::BugfixTransformSafariForShadowing,
        },
        Flag {
            name: "BugfixTransformV8SpreadParametersInOptionalChaining",
            value: FeatureFlag::BugfixTransformV8SpreadParametersInOptionalChaining,
        },
    ];
}

impl Flags for FeatureFlag {
    type Bits = u64;

    ghost exact = { ⊤ };

    ghost table = { table };

    ghost set_of = { λ f. f.bits };

    fn flags<'a>() -> &'a [Flag<FeatureFlag>] {
        FeatureFlag::FLAGS
    }

    fn bits(&self) -> u64 {
        self.bits
    }

    fn from_bits_retain(bits: u64) -> FeatureFlag {
        FeatureFlag { bits }
    }
}

impl BitOr for FeatureFlag {
    type Output = FeatureFlag;

    ghost bitor_gives = { λ a b r. r.bits ≡ bit_or a.bits b.bits };

    fn bitor(self, other: FeatureFlag) -> FeatureFlag {
        FeatureFlag {
            bits: self.bits | other.bits,
        }
    }
}

impl BitOrAssign for FeatureFlag {
    ghost bitor_assign_gives = { λ a b r. r.bits ≡ bit_or a.bits b.bits };

    fn bitor_assign(&mut self, other: FeatureFlag) {
        self.bits |= other.bits;
    }
}

impl BitAnd for FeatureFlag {
    type Output = FeatureFlag;

    ghost bitand_gives = { λ a b r. r.bits ≡ bit_and a.bits b.bits };

    fn bitand(self, other: FeatureFlag) -> FeatureFlag {
        FeatureFlag {
            bits: self.bits & other.bits,
        }
    }
}

impl BitAndAssign for FeatureFlag {
    ghost bitand_assign_gives = { λ a b r. r.bits ≡ bit_and a.bits b.bits };

    fn bitand_assign(&mut self, other: FeatureFlag) {
        self.bits &= other.bits;
    }
}

impl BitXor for FeatureFlag {
    type Output = FeatureFlag;

    ghost bitxor_gives = { λ a b r. r.bits ≡ bit_xor a.bits b.bits };

    fn bitxor(self, other: FeatureFlag) -> FeatureFlag {
        FeatureFlag {
            bits: self.bits ^ other.bits,
        }
    }
}

impl BitXorAssign for FeatureFlag {
    ghost bitxor_assign_gives = { λ a b r. r.bits ≡ bit_xor a.bits b.bits };

    fn bitxor_assign(&mut self, other: FeatureFlag) {
        self.bits ^= other.bits;
    }
}

impl Sub for FeatureFlag {
    type Output = FeatureFlag;

    ghost sub_gives = { λ a b r. r.bits ≡ without 64 a.bits b.bits };

    fn sub(self, other: FeatureFlag) -> FeatureFlag {
        FeatureFlag {
            bits: self.bits & !other.bits,
        }
    }
}

impl SubAssign for FeatureFlag {
    ghost sub_assign_gives = { λ a b r. r.bits ≡ without 64 a.bits b.bits };

    fn sub_assign(&mut self, other: FeatureFlag) {
        self.bits &= !other.bits;
    }
}

impl Not for FeatureFlag {
    type Output = FeatureFlag;

    ghost not_gives = { λ a r. r.bits ≡ without 64 (known_bits table) a.bits };

    fn not(self) -> FeatureFlag {
        FeatureFlag {
            bits: ALL & !self.bits,
        }
    }
}

// All features.
const ALL: u64 = (1 << 50) - 1;
