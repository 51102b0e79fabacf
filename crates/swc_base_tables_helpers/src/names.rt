//! The helpers by name, and the name of each.

ghost use Rattle.std.specs.Prelude.{◌≡◌};
ghost use Rattle.swc_base_tables_helpers.specs.Table.{name_of, numbers_from, table};

use crate::helper::Helper;

impl Helper {
    pub const ApplyDecoratedDescriptor: Helper = Helper { number: 1 };

    pub const ArrayLikeToArray: Helper = Helper { number: 2 };

    pub const ArrayWithHoles: Helper = Helper { number: 3 };

    pub const ArrayWithoutHoles: Helper = Helper { number: 4 };

    pub const AssertThisInitialized: Helper = Helper { number: 5 };

    pub const AsyncGenerator: Helper = Helper { number: 6 };

    pub const AsyncGeneratorDelegate: Helper = Helper { number: 7 };

    pub const AsyncIterator: Helper = Helper { number: 8 };

    pub const AsyncToGenerator: Helper = Helper { number: 9 };

    pub const AwaitAsyncGenerator: Helper = Helper { number: 10 };

    pub const AwaitValue: Helper = Helper { number: 11 };

    pub const CheckPrivateRedeclaration: Helper = Helper { number: 12 };

    pub const ClassApplyDescriptorDestructure: Helper = Helper { number: 13 };

    pub const ClassApplyDescriptorGet: Helper = Helper { number: 14 };

    pub const ClassApplyDescriptorSet: Helper = Helper { number: 15 };

    pub const ClassApplyDescriptorUpdate: Helper = Helper { number: 16 };

    pub const ClassCallCheck: Helper = Helper { number: 17 };

    pub const ClassCheckPrivateStaticFieldDescriptor: Helper = Helper { number: 18 };

    pub const ClassExtractFieldDescriptor: Helper = Helper { number: 19 };

    pub const ClassNameTdzError: Helper = Helper { number: 20 };

    pub const ClassPrivateFieldGet: Helper = Helper { number: 21 };

    pub const ClassPrivateFieldInit: Helper = Helper { number: 22 };

    pub const ClassPrivateFieldLooseBase: Helper = Helper { number: 23 };

    pub const ClassPrivateFieldLooseKey: Helper = Helper { number: 24 };

    pub const ClassPrivateFieldSet: Helper = Helper { number: 25 };

    pub const ClassPrivateFieldUpdate: Helper = Helper { number: 26 };

    pub const ClassPrivateMethodGet: Helper = Helper { number: 27 };

    pub const ClassPrivateMethodInit: Helper = Helper { number: 28 };

    pub const ClassPrivateMethodSet: Helper = Helper { number: 29 };

    pub const ClassStaticPrivateFieldSpecGet: Helper = Helper { number: 30 };

    pub const ClassStaticPrivateFieldSpecSet: Helper = Helper { number: 31 };

    pub const ClassStaticPrivateFieldUpdate: Helper = Helper { number: 32 };

    pub const Construct: Helper = Helper { number: 33 };

    pub const CreateClass: Helper = Helper { number: 34 };

    pub const Decorate: Helper = Helper { number: 35 };

    pub const Defaults: Helper = Helper { number: 36 };

    pub const DefineEnumerableProperties: Helper = Helper { number: 37 };

    pub const DefineProperty: Helper = Helper { number: 38 };

    pub const ExportStar: Helper = Helper { number: 39 };

    pub const Extends: Helper = Helper { number: 40 };

    pub const Get: Helper = Helper { number: 41 };

    pub const GetPrototypeOf: Helper = Helper { number: 42 };

    pub const Inherits: Helper = Helper { number: 43 };

    pub const InheritsLoose: Helper = Helper { number: 44 };

    pub const InitializerDefineProperty: Helper = Helper { number: 45 };

    pub const InitializerWarningHelper: Helper = Helper { number: 46 };

    pub const Instanceof: Helper = Helper { number: 47 };

    pub const InteropRequireDefault: Helper = Helper { number: 48 };

    pub const InteropRequireWildcard: Helper = Helper { number: 49 };

    pub const IsNativeFunction: Helper = Helper { number: 50 };

    pub const IterableToArray: Helper = Helper { number: 51 };

    pub const IterableToArrayLimit: Helper = Helper { number: 52 };

    pub const IterableToArrayLimitLoose: Helper = Helper { number: 53 };

    pub const Jsx: Helper = Helper { number: 54 };

    pub const NewArrowCheck: Helper = Helper { number: 55 };

    pub const NonIterableRest: Helper = Helper { number: 56 };

    pub const NonIterableSpread: Helper = Helper { number: 57 };

    pub const ObjectDestructuringEmpty: Helper = Helper { number: 58 };

    pub const ObjectSpread: Helper = Helper { number: 59 };

    pub const ObjectSpreadProps: Helper = Helper { number: 60 };

    pub const ObjectWithoutProperties: Helper = Helper { number: 61 };

    pub const ObjectWithoutPropertiesLoose: Helper = Helper { number: 62 };

    pub const PossibleConstructorReturn: Helper = Helper { number: 63 };

    pub const ReadOnlyError: Helper = Helper { number: 64 };

    pub const Set: Helper = Helper { number: 65 };

    pub const SetPrototypeOf: Helper = Helper { number: 66 };

    pub const SkipFirstGeneratorNext: Helper = Helper { number: 67 };

    pub const SlicedToArray: Helper = Helper { number: 68 };

    pub const SlicedToArrayLoose: Helper = Helper { number: 69 };

    pub const SuperPropBase: Helper = Helper { number: 70 };

    pub const TaggedTemplateLiteral: Helper = Helper { number: 71 };

    pub const TaggedTemplateLiteralLoose: Helper = Helper { number: 72 };

    pub const Throw: Helper = Helper { number: 73 };

    pub const ToArray: Helper = Helper { number: 74 };

    pub const ToConsumableArray: Helper = Helper { number: 75 };

    pub const ToPrimitive: Helper = Helper { number: 76 };

    pub const ToPropertyKey: Helper = Helper { number: 77 };

    pub const Update: Helper = Helper { number: 78 };

    pub const TypeOf: Helper = Helper { number: 79 };

    pub const UnsupportedIterableToArray: Helper = Helper { number: 80 };

    pub const WrapAsyncGenerator: Helper = Helper { number: 81 };

    pub const WrapNativeSuper: Helper = Helper { number: 82 };

    pub const WriteOnlyError: Helper = Helper { number: 83 };

    pub const ClassPrivateFieldDestructure: Helper = Helper { number: 84 };

    pub const ClassStaticPrivateFieldDestructure: Helper = Helper { number: 85 };

    pub const ClassStaticPrivateMethodGet: Helper = Helper { number: 86 };

    pub const ClassCheckPrivateStaticAccess: Helper = Helper { number: 87 };

    pub const IsNativeReflectConstruct: Helper = Helper { number: 88 };

    pub const CreateSuper: Helper = Helper { number: 89 };

    pub const CreateForOfIteratorHelperLoose: Helper = Helper { number: 90 };

    pub const TsDecorate: Helper = Helper { number: 91 };

    pub const TsGenerator: Helper = Helper { number: 92 };

    pub const TsMetadata: Helper = Helper { number: 93 };

    pub const TsParam: Helper = Helper { number: 94 };

    pub const TsValues: Helper = Helper { number: 95 };

    pub const ApplyDecs2203R: Helper = Helper { number: 96 };

    pub const Identity: Helper = Helper { number: 97 };

    pub const Dispose: Helper = Helper { number: 98 };

    pub const Using: Helper = Helper { number: 99 };

    pub const UsingCtx: Helper = Helper { number: 100 };

    /// All helpers, in the order of their numbers.
    pub fn all() -> [Helper; 100]
        ensures { result ≡ numbers_from 1 table }
    {
        [
            Helper::ApplyDecoratedDescriptor,
            Helper::ArrayLikeToArray,
            Helper::ArrayWithHoles,
            Helper::ArrayWithoutHoles,
            Helper::AssertThisInitialized,
            Helper::AsyncGenerator,
            Helper::AsyncGeneratorDelegate,
            Helper::AsyncIterator,
            Helper::AsyncToGenerator,
            Helper::AwaitAsyncGenerator,
            Helper::AwaitValue,
            Helper::CheckPrivateRedeclaration,
            Helper::ClassApplyDescriptorDestructure,
            Helper::ClassApplyDescriptorGet,
            Helper::ClassApplyDescriptorSet,
            Helper::ClassApplyDescriptorUpdate,
            Helper::ClassCallCheck,
            Helper::ClassCheckPrivateStaticFieldDescriptor,
            Helper::ClassExtractFieldDescriptor,
            Helper::ClassNameTdzError,
            Helper::ClassPrivateFieldGet,
            Helper::ClassPrivateFieldInit,
            Helper::ClassPrivateFieldLooseBase,
            Helper::ClassPrivateFieldLooseKey,
            Helper::ClassPrivateFieldSet,
            Helper::ClassPrivateFieldUpdate,
            Helper::ClassPrivateMethodGet,
            Helper::ClassPrivateMethodInit,
            Helper::ClassPrivateMethodSet,
            Helper::ClassStaticPrivateFieldSpecGet,
            Helper::ClassStaticPrivateFieldSpecSet,
            Helper::ClassStaticPrivateFieldUpdate,
            Helper::Construct,
            Helper::CreateClass,
            Helper::Decorate,
            Helper::Defaults,
            Helper::DefineEnumerableProperties,
            Helper::DefineProperty,
            Helper::ExportStar,
            Helper::Extends,
            Helper::Get,
            Helper::GetPrototypeOf,
            Helper::Inherits,
            Helper::InheritsLoose,
            Helper::InitializerDefineProperty,
            Helper::InitializerWarningHelper,
            Helper::Instanceof,
            Helper::InteropRequireDefault,
            Helper::InteropRequireWildcard,
            Helper::IsNativeFunction,
            Helper::IterableToArray,
            Helper::IterableToArrayLimit,
            Helper::IterableToArrayLimitLoose,
            Helper::Jsx,
            Helper::NewArrowCheck,
            Helper::NonIterableRest,
            Helper::NonIterableSpread,
            Helper::ObjectDestructuringEmpty,
            Helper::ObjectSpread,
            Helper::ObjectSpreadProps,
            Helper::ObjectWithoutProperties,
            Helper::ObjectWithoutPropertiesLoose,
            Helper::PossibleConstructorReturn,
            Helper::ReadOnlyError,
            Helper::Set,
            Helper::SetPrototypeOf,
            Helper::SkipFirstGeneratorNext,
            Helper::SlicedToArray,
            Helper::SlicedToArrayLoose,
            Helper::SuperPropBase,
            Helper::TaggedTemplateLiteral,
            Helper::TaggedTemplateLiteralLoose,
            Helper::Throw,
            Helper::ToArray,
            Helper::ToConsumableArray,
            Helper::ToPrimitive,
            Helper::ToPropertyKey,
            Helper::Update,
            Helper::TypeOf,
            Helper::UnsupportedIterableToArray,
            Helper::WrapAsyncGenerator,
            Helper::WrapNativeSuper,
            Helper::WriteOnlyError,
            Helper::ClassPrivateFieldDestructure,
            Helper::ClassStaticPrivateFieldDestructure,
            Helper::ClassStaticPrivateMethodGet,
            Helper::ClassCheckPrivateStaticAccess,
            Helper::IsNativeReflectConstruct,
            Helper::CreateSuper,
            Helper::CreateForOfIteratorHelperLoose,
            Helper::TsDecorate,
            Helper::TsGenerator,
            Helper::TsMetadata,
            Helper::TsParam,
            Helper::TsValues,
            Helper::ApplyDecs2203R,
            Helper::Identity,
            Helper::Dispose,
            Helper::Using,
            Helper::UsingCtx,
        ]
    }

    /// The helper's name, as programs spell it.
    pub fn name(self) -> &'static str
        ensures { result.now ≡ name_of self }
    {
        NAMES[self.number as usize - 1]
    }
}

static NAMES: [&str; 100] = [
    "apply_decorated_descriptor",
    "array_like_to_array",
    "array_with_holes",
    "array_without_holes",
    "assert_this_initialized",
    "async_generator",
    "async_generator_delegate",
    "async_iterator",
    "async_to_generator",
    "await_async_generator",
    "await_value",
    "check_private_redeclaration",
    "class_apply_descriptor_destructure",
    "class_apply_descriptor_get",
    "class_apply_descriptor_set",
    "class_apply_descriptor_update",
    "class_call_check",
    "class_check_private_static_field_descriptor",
    "class_extract_field_descriptor",
    "class_name_tdz_error",
    "class_private_field_get",
    "class_private_field_init",
    "class_private_field_loose_base",
    "class_private_field_loose_key",
    "class_private_field_set",
    "class_private_field_update",
    "class_private_method_get",
    "class_private_method_init",
    "class_private_method_set",
    "class_static_private_field_spec_get",
    "class_static_private_field_spec_set",
    "class_static_private_field_update",
    "construct",
    "create_class",
    "decorate",
    "defaults",
    "define_enumerable_properties",
    "define_property",
    "export_star",
    "extends",
    "get",
    "get_prototype_of",
    "inherits",
    "inherits_loose",
    "initializer_define_property",
    "initializer_warning_helper",
    "instanceof",
    "interop_require_default",
    "interop_require_wildcard",
    "is_native_function",
    "iterable_to_array",
    "iterable_to_array_limit",
    "iterable_to_array_limit_loose",
    "jsx",
    "new_arrow_check",
    "non_iterable_rest",
    "non_iterable_spread",
    "object_destructuring_empty",
    "object_spread",
    "object_spread_props",
    "object_without_properties",
    "object_without_properties_loose",
    "possible_constructor_return",
    "read_only_error",
    "set",
    "set_prototype_of",
    "skip_first_generator_next",
    "sliced_to_array",
    "sliced_to_array_loose",
    "super_prop_base",
    "tagged_template_literal",
    "tagged_template_literal_loose",
    "throw",
    "to_array",
    "to_consumable_array",
    "to_primitive",
    "to_property_key",
    "update",
    "type_of",
    "unsupported_iterable_to_array",
    "wrap_async_generator",
    "wrap_native_super",
    "write_only_error",
    "class_private_field_destructure",
    "class_static_private_field_destructure",
    "class_static_private_method_get",
    "class_check_private_static_access",
    "is_native_reflect_construct",
    "create_super",
    "create_for_of_iterator_helper_loose",
    "ts_decorate",
    "ts_generator",
    "ts_metadata",
    "ts_param",
    "ts_values",
    "apply_decs_2203_r",
    "identity",
    "dispose",
    "using",
    "using_ctx",
];
