//! The short texts, and those of them that ids get.
ghost use Rattle.std.specs.Prelude.{◌≡◌, ◌<◌, ◌≤◌, ◌^◌, ℕ, [], ◌∷◌, ◌++◌, Some, length, map, string_bytes, IfOk, IfSome, OnOk};
ghost use Rattle.swc_base_rename_by_use.specs.ShortTexts.{before as places_before, character as character_at, past as past_places, place as place_of, short_text as text_of, text_at_place, withheld};

use std::alloc::{AllocError, Global};
use swc_tree_items::Text;
use swc_tree_marks::JsWord;

// How many characters the text of a counter has at most.
const LONGEST: usize = 11;

// The places of the texts that are withheld, in rising order.
const WITHHELD: [u128; 51] = [
    260, // do
    571, // if
    579, // in
    24_903, // for
    48_841, // let
    57_036, // new
    82_446, // try
    89_543, // var
    163_293, // NaN
    750_138, // case
    1_319_482, // else
    1_327_810, // enum
    1_359_297, // eval
    3_715_201, // null
    5_234_632, // this
    5_276_346, // true
    5_787_577, // void
    6_025_853, // with
    20_148_169, // await
    35_630_528, // break
    48_012_861, // catch
    50_819_656, // class
    51_659_337, // const
    98_312_762, // false
    321_674_951, // super
    335_053_132, // throw
    385_347_706, // while
    419_147_897, // yield
    4_211_585_658, // delete
    5_605_184_009, // export
    9_715_601_929, // import
    17_362_329_528, // public
    19_246_133_763, // return
    20_566_548_408, // static
    20_618_976_829, // switch
    21_728_047_419, // typeof
    269_439_774_857, // default
    358_796_246_664, // extends
    411_307_876_494, // finally
    1_089_730_735_930, // package
    1_108_087_894_650, // private
    13_542_199_411_386, // continue
    17_240_182_476_487, // debugger
    27_148_373_455_171, // function
    154_202_195_096_206, // Infinity
    316_465_050_567_304, // arguments
    2_551_548_935_630_394, // interface
    4_539_138_248_580_793, // protected
    5_928_148_944_043_705, // undefined
    163_000_531_913_818_760, // implements
    163_295_746_507_125_051, // instanceof
];

// The character of a place below 64.
fn character(place: u128) -> u8
    requires { place < 64 }
    ensures { result ≡ character_at place }
{
    let place = place as u8;
    if place < 26 {
        b'a' + place
    } else if place < 52 {
        b'A' + (place - 26)
    } else if place == 52 {
        b'$'
    } else if place == 53 {
        b'_'
    } else {
        b'0' + (place - 54)
    }
}

// The place that is left at a place, once some are taken out, which rise.
fn past(taken: &[u128], place: usize) -> u128
    requires { length taken.now ≤ 64 }
    ensures { result ≡ past_places taken.now place }
{
    let mut left = place as u128;
    for place in taken {
        if left < *place {
            return left;
        }
        left += 1;
    }
    left
}

// Puts the character of a place below 64 behind a text.
fn push_character(text: &mut String, place: u128) -> Result<(), AllocError>
    requires { place < 64 }
    ensures { OnOk result (string_bytes text.new ≡ string_bytes text.old ++ character_at place ∷ []) }
{
    text.push(char::from(character(place)))
}

// Puts the text of a place, if it has at most so many characters, behind a text.
#[tactic(auto, using(crate::specs::ShortLaws::text_longer, crate::specs::ShortLaws::text_short))]
fn push_text(text: &mut String, most: usize, place: u128) -> Result<(), AllocError>
    ensures { OnOk result (string_bytes text.new ≡ string_bytes text.old ++ text_at_place most place) }
{
    if most == 0 {
        return Ok(());
    }
    if place < 54 {
        return push_character(text, place);
    }
    push_text(text, most - 1, (place - 54) / 64)?;
    push_character(text, (place - 54) % 64)
}

// How many of some places lie before another.
fn before(taken: &[u128], place: u128) -> usize
    ensures { result ≡ places_before taken.now place }
{
    let mut count = 0;
    for other in taken {
        if *other < place {
            count += 1;
        }
    }
    count
}

/// The counter whose text is at a place of the list of all texts over `a` to `z`, `A` to `Z`, `$`, `_` and, not first, the digits, if that text
/// is one that ids get: there is no other.
#[tactic(auto, using(crate::specs::ShortLaws::counter_there))]
pub fn counter_at(place: u128) -> Option<usize>
    ensures found { IfSome result (λ n. past_places (map place_of withheld) n ≡ place) }
    ensures each { (n : ℕ) → n < 2 ^ 64 → past_places (map place_of withheld) n ≡ place → result ≡ Some n }
{
    let left = place.saturating_sub(before(&WITHHELD, place) as u128);
    let n = usize::try_from(left).ok()?;
    if past(&WITHHELD, n) == place {
        Some(n)
    } else {
        None
    }
}

/// The text of a counter: the first are `a` to `z`, `A` to `Z`, `$` and `_`, then come those of two characters, and so on. None is a
/// reserved word, `eval`, `arguments`, `undefined`, `NaN` or `Infinity`.
///
/// # Errors
///
/// `AllocError` where memory is refused.
pub fn short_text(alloc: Global, n: usize) -> Result<JsWord, AllocError>
    ensures { IfOk result (λ made. made ≡ text_of n) }
{
    let mut text = String::new(alloc);
    push_text(&mut text, LONGEST, past(&WITHHELD, n))?;
    Text::from_string(alloc, text)
}
