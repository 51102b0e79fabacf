//! What may be assumed of a program.

ghost use Rattle.std.specs.Prelude.{◌≡◌, ◌<◌, true, IfOk, OnOk, MatchResult, Ok, Err, map, replicate, slice_index_or, []};
ghost use Rattle.serde_json.specs.Data.{object, boolean, put};
ghost use Rattle.serde_json.specs.View.{view, members_view};
ghost use Rattle.swc_base_tables_settings.specs.Assumptions.{flags, keys, members_with, first_fault, fault_of, flag_in, is_key, read};

use crate::error::AssumptionsError;
use crate::native::is_among;
use serde_json::{Map, Value};
use std::alloc::{AllocError, Global};

/// What a lowering may assume of a program, so that it can write less.
#[derive(Debug, Default, Clone, Copy, PartialEq, Eq, PartialOrd, Ord, Hash)]
pub struct Assumptions {
    pub array_like_is_iterable: bool,
    pub constant_reexports: bool,
    pub constant_super: bool,
    pub enumerable_module_meta: bool,
    pub ignore_function_length: bool,
    pub ignore_function_name: bool,
    pub ignore_to_primitive_hint: bool,
    pub iterable_is_array: bool,
    pub mutable_template_object: bool,
    pub no_class_calls: bool,
    pub no_document_all: bool,
    pub no_incomplete_ns_import_detection: bool,
    pub no_new_arrows: bool,
    pub object_rest_no_symbols: bool,
    pub private_fields_as_properties: bool,
    pub pure_getters: bool,
    pub set_class_methods: bool,
    pub set_computed_properties: bool,
    pub set_public_class_fields: bool,
    pub set_spread_properties: bool,
    pub skip_for_of_iterator_closing: bool,
    pub super_is_callable_constructor: bool,
    pub ts_enum_is_readonly: bool,
}

impl Assumptions {
    /// All of them.
    pub fn all() -> Assumptions
        ensures { flags result ≡ replicate 23 true }
    {
        Assumptions {
            array_like_is_iterable: true,
            constant_reexports: true,
            constant_super: true,
            enumerable_module_meta: true,
            ignore_function_length: true,
            ignore_function_name: true,
            ignore_to_primitive_hint: true,
            iterable_is_array: true,
            mutable_template_object: true,
            no_class_calls: true,
            no_document_all: true,
            no_incomplete_ns_import_detection: true,
            no_new_arrows: true,
            object_rest_no_symbols: true,
            private_fields_as_properties: true,
            pure_getters: true,
            set_class_methods: true,
            set_computed_properties: true,
            set_public_class_fields: true,
            set_spread_properties: true,
            skip_for_of_iterator_closing: true,
            super_is_callable_constructor: true,
            ts_enum_is_readonly: true,
        }
    }

    /// The object of all keys, each with its flag.
    ///
    /// # Errors
    ///
    /// Where memory is refused.
    pub fn to_value(&self, alloc: Global) -> Result<Value, AllocError>
        ensures value { IfOk result (λ value. view value ≡ object (members_with keys (flags self.now))) }
        ensures read_back { IfOk result (λ value. read (view value) ≡ Ok (flags self.now)) }
    {
        let flags = self.flags();
        let members = members_of(alloc, &flags)?;
        Ok(Value::Object(members))
    }

    /// What a value says. An absent key is false.
    ///
    /// # Errors
    ///
    /// `NotObject` where it is no object. Else the first key in the order of bytes that is none of an assumption, or has no
    /// boolean, decides: `UnknownKey`, or `NotBool`.
    pub fn from_value(value: &Value) -> Result<Assumptions, AssumptionsError>
        ensures { MatchResult result (λ a. read (view value.now) ≡ Ok (flags a)) (λ e. read (view value.now) ≡ Err e) }
    {
        let Some(members) = value.as_object() else {
            return Err(AssumptionsError::NotObject);
        };
        match first_fault_of(members) {
            Some(fault) => Err(fault),
            None => Ok(Assumptions::said_by(value)),
        }
    }

    // The flags, in the order of the fields.
    fn flags(&self) -> [bool; 23]
        ensures { result ≡ flags self.now }
    {
        [
            self.array_like_is_iterable,
            self.constant_reexports,
            self.constant_super,
            self.enumerable_module_meta,
            self.ignore_function_length,
            self.ignore_function_name,
            self.ignore_to_primitive_hint,
            self.iterable_is_array,
            self.mutable_template_object,
            self.no_class_calls,
            self.no_document_all,
            self.no_incomplete_ns_import_detection,
            self.no_new_arrows,
            self.object_rest_no_symbols,
            self.private_fields_as_properties,
            self.pure_getters,
            self.set_class_methods,
            self.set_computed_properties,
            self.set_public_class_fields,
            self.set_spread_properties,
            self.skip_for_of_iterator_closing,
            self.super_is_callable_constructor,
            self.ts_enum_is_readonly,
        ]
    }

    // What a value says of each key.
    fn said_by(value: &Value) -> Assumptions
        ensures { flags result ≡ map (flag_in (view value.now)) keys }
    {
        Assumptions {
            array_like_is_iterable: flag_of(value, "arrayLikeIsIterable"),
            constant_reexports: flag_of(value, "constantReexports"),
            constant_super: flag_of(value, "constantSuper"),
            enumerable_module_meta: flag_of(value, "enumerableModuleMeta"),
            ignore_function_length: flag_of(value, "ignoreFunctionLength"),
            ignore_function_name: flag_of(value, "ignoreFunctionName"),
            ignore_to_primitive_hint: flag_of(value, "ignoreToPrimitiveHint"),
            iterable_is_array: flag_of(value, "iterableIsArray"),
            mutable_template_object: flag_of(value, "mutableTemplateObject"),
            no_class_calls: flag_of(value, "noClassCalls"),
            no_document_all: flag_of(value, "noDocumentAll"),
            no_incomplete_ns_import_detection: flag_of(value, "noIncompleteNsImportDetection"),
            no_new_arrows: flag_of(value, "noNewArrows"),
            object_rest_no_symbols: flag_of(value, "objectRestNoSymbols"),
            private_fields_as_properties: flag_of(value, "privateFieldsAsProperties"),
            pure_getters: flag_of(value, "pureGetters"),
            set_class_methods: flag_of(value, "setClassMethods"),
            set_computed_properties: flag_of(value, "setComputedProperties"),
            set_public_class_fields: flag_of(value, "setPublicClassFields"),
            set_spread_properties: flag_of(value, "setSpreadProperties"),
            skip_for_of_iterator_closing: flag_of(value, "skipForOfIteratorClosing"),
            super_is_callable_constructor: flag_of(value, "superIsCallableConstructor"),
            ts_enum_is_readonly: flag_of(value, "tsEnumIsReadonly"),
        }
    }
}

// The flag that a value gives to a key.
fn flag_of(value: &Value, key: &str) -> bool
    ensures { result ≡ flag_in (view value.now) key.now }
{
    value.get(key).and_then(Value::as_bool).unwrap_or(false)
}

// Whether a key is that of an assumption.
fn is_known(key: &str) -> bool
    ensures { result ≡ is_key key.now }
{
    is_among(&KEYS, key)
}

// What is wrong with a member.
fn fault_in(key: &str, value: &Value) -> Option<AssumptionsError>
    ensures { result ≡ fault_of key.now (view value.now) }
{
    if !is_known(key) {
        Some(AssumptionsError::UnknownKey)
    } else if value.as_bool().is_some() {
        None
    } else {
        Some(AssumptionsError::NotBool)
    }
}

// The fault of the first member that has one.
fn first_fault_of(members: &Map<String, Value>) -> Option<AssumptionsError>
    ensures { result ≡ first_fault (members_view members.now.entries) }
{
    for (key, value) in members {
        if let Some(fault) = fault_in(key.as_str(), value) {
            return Some(fault);
        }
    }
    None
}

// The key at a place.
fn key_at(place: usize) -> &'static str
    requires { place < 23 }
    ensures { result.now ≡ slice_index_or keys place [] }
{
    KEYS[place]
}

// Gives members a key with its flag.
fn put_flag(
    alloc: Global,
    members: &mut Map<String, Value>,
    key: &str,
    flag: bool,
) -> Result<(), AllocError>
    ensures { OnOk result (members_view members.new.entries ≡ put key.now (boolean flag) (members_view members.old.entries)) }
{
    let key = String::from_str(alloc, key)?;
    members.insert(key, Value::Bool(flag))?;
    Ok(())
}

// The members of all keys with these flags.
fn members_of(alloc: Global, flags: &[bool; 23]) -> Result<Map<String, Value>, AllocError>
    ensures { IfOk result (λ members. members_view members.entries ≡ members_with keys flags.now) }
{
    let mut members = Map::new(alloc);
    let mut place = 23;
    while place > 0 {
        place -= 1;
        put_flag(alloc, &mut members, key_at(place), flags[place])?;
    }
    Ok(members)
}

// In the order of their bytes.
static KEYS: [&str; 23] = [
    "arrayLikeIsIterable",
    "constantReexports",
    "constantSuper",
    "enumerableModuleMeta",
    "ignoreFunctionLength",
    "ignoreFunctionName",
    "ignoreToPrimitiveHint",
    "iterableIsArray",
    "mutableTemplateObject",
    "noClassCalls",
    "noDocumentAll",
    "noIncompleteNsImportDetection",
    "noNewArrows",
    "objectRestNoSymbols",
    "privateFieldsAsProperties",
    "pureGetters",
    "setClassMethods",
    "setComputedProperties",
    "setPublicClassFields",
    "setSpreadProperties",
    "skipForOfIteratorClosing",
    "superIsCallableConstructor",
    "tsEnumIsReadonly",
];
