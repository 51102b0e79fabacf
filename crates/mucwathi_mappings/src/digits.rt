//! Numbers in base 64, as source maps have them.
ghost use Rattle.std.specs.Prelude.{◌≡◌, ◌+◌, ◌*◌, ◌<◌, OnOk};
ghost use Rattle.mucwathi_mappings.specs.Numbers as spec;
ghost use Rattle.mucwathi_mappings.specs.Numbers.{AddsNumber, AddsWay};

use std::alloc::AllocError;

const DIGITS: &[u8; 64] = b"ABCDEFGHIJKLMNOPQRSTUVWXYZabcdefghijklmnopqrstuvwxyz0123456789+/";

// A digit; of no greater number is one asked for.
fn digit(value: u64) -> u8
    ensures { result ≡ spec.digit value }
{
    DIGITS.get(value as usize).copied().unwrap_or(0)
}

// Adds a number: five bits a digit, the least first, and 32 more where others follow. There are 13 digits at most.
fn add_number(out: &mut Vec<u8>, number: u64) -> Result<(), AllocError>
    ensures { OnOk result (AddsNumber number out.old.items out.new.items) }
{
    if number < 32 {
        out.push(digit(number))?;
        return Ok(());
    }
    out.push(digit(number % 32 + 32))?;
    add_number(out, number / 32)
}

// Adds how far it is, with what is added to its first digit; twice the way may be more than a number holds.
fn add_far(out: &mut Vec<u8>, far: u64, back: u64) -> Result<(), AllocError>
    requires { back < 2 }
    ensures { OnOk result (AddsNumber (2 * far + back) out.old.items out.new.items) }
{
    if far < 16 {
        out.push(digit(far * 2 + back))?;
        return Ok(());
    }
    out.push(digit(far % 16 * 2 + back + 32))?;
    add_number(out, far / 16)
}

/// Adds how far it is from one number to another: twice that, and 1 more if it is back.
pub(crate) fn add_way(out: &mut Vec<u8>, from: usize, to: usize) -> Result<(), AllocError>
    ensures { OnOk result (AddsWay from to out.old.items out.new.items) }
{
    if to < from {
        return add_far(out, (from - to) as u64, 1);
    }
    add_far(out, (to - from) as u64, 0)
}
