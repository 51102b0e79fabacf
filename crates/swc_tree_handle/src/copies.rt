//! Copies of fields side by side, so that the copy of a struct has one call that memory may be refused to.
ghost use Rattle.std.specs.Prelude.{IfOk};

use std::alloc::AllocError;

/// Copies of two fields. Where memory is refused, what was copied is dropped.
pub fn clone_two<A: Clone, B: Clone>(a: &A, b: &B) -> Result<(A, B), AllocError>
    ensures { IfOk result (λ copy. A.is_clone a.now copy.0 × B.is_clone b.now copy.1) }
{
    let a = a.clone()?;
    let b = b.clone()?;
    Ok((a, b))
}

/// Copies of three fields. Where memory is refused, what was copied is dropped.
pub fn clone_three<A: Clone, B: Clone, C: Clone>(
    a: &A,
    b: &B,
    c: &C,
) -> Result<(A, B, C), AllocError>
    ensures { IfOk result (λ copy. A.is_clone a.now copy.0 × B.is_clone b.now copy.1 × C.is_clone c.now copy.2) }
{
    let (a, b) = clone_two(a, b)?;
    let c = c.clone()?;
    Ok((a, b, c))
}

/// Copies of four fields. Where memory is refused, what was copied is dropped.
pub fn clone_four<A: Clone, B: Clone, C: Clone, D: Clone>(
    a: &A,
    b: &B,
    c: &C,
    d: &D,
) -> Result<(A, B, C, D), AllocError>
    ensures { IfOk result (λ copy. A.is_clone a.now copy.0 × B.is_clone b.now copy.1 × C.is_clone c.now copy.2 × D.is_clone d.now copy.3) }
{
    let (a, b, c) = clone_three(a, b, c)?;
    let d = d.clone()?;
    Ok((a, b, c, d))
}

/// Copies of five fields. Where memory is refused, what was copied is dropped.
pub fn clone_five<A: Clone, B: Clone, C: Clone, D: Clone, E: Clone>(
    a: &A,
    b: &B,
    c: &C,
    d: &D,
    e: &E,
) -> Result<(A, B, C, D, E), AllocError>
    ensures { IfOk result (λ copy. A.is_clone a.now copy.0 × B.is_clone b.now copy.1 × C.is_clone c.now copy.2 × D.is_clone d.now copy.3 × E.is_clone e.now copy.4) }
{
    let (a, b, c, d) = clone_four(a, b, c, d)?;
    let e = e.clone()?;
    Ok((a, b, c, d, e))
}
