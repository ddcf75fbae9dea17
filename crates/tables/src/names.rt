//! Names of columns: where one is, which is repeated, and copies of them.
ghost use Rattle.std.specs.Prelude.{◌≡◌, ℕ, List, All, IfNone, IfOk, IfSome, IsOkUnless, MatchOption, length, map};
ghost use Rattle.std.specs.List.{AllZip};
ghost use Rattle.std.specs.String.{string_bytes};
ghost use Rattle.tables.specs.Put.{IsPlaceFor};
ghost use Rattle.tables.specs.TableFaults.{IsFirstRepeated, IsFirstUnknown};
ghost use Rattle.tables.specs.Tables.{AreDistinct, IsKnown, IsPlaceOf, IsRenamedTo, IsUnknown};

use column_core::{VortexError, VortexResult};
use std::alloc::Allocator;

/// Has the name of a column.
pub(crate) trait Named {
    // The name, in UTF-8.
    ghost named: { Self → List ℕ };

    /// Returns the name.
    fn name(&self) -> &str
        ensures { result.now ≡ named self.now };
}

impl<A: Allocator> Named for String<A> {
    ghost named = { λ text. string_bytes text };

    fn name(&self) -> &str {
        self.as_str()
    }
}

/// Returns the first place of the name.
pub(crate) fn place_of<N: Named>(names: &[N], name: &str) -> Option<usize>
    ensures found { IfSome result (IsPlaceOf (map N.named names.now) name.now) }
    ensures unknown { IfNone result (IsUnknown (map N.named names.now) name.now) }
{
    for place in 0..names.len() {
        if names[place].name() == name {
            return Some(place);
        }
    }
    None
}

/// Returns the place of the name, or how many names there are where it is none of them.
pub(crate) fn place_for<A: Allocator>(names: &[String<A>], name: &str) -> usize
    ensures { IsPlaceFor (map string_bytes names.now) name.now result }
{
    match place_of(names, name) {
        Some(place) => place,
        None => names.len(),
    }
}

/// Returns the place of the first name that an earlier one is equal to, after the place of that one.
pub(crate) fn first_repeated<N: Named>(names: &[N]) -> Option<(usize, usize)>
    ensures { MatchOption result (AreDistinct (map N.named names.now) (length names.now))
        (λ found. IsFirstRepeated (map N.named names.now) found.0 found.1) }
{
    for place in 0..names.len() {
        if let Some(earlier) = place_of(&names[..place], names[place].name()) {
            return Some((earlier, place));
        }
    }
    None
}

/// Returns the place of the first of the names that is not one of `own`.
pub(crate) fn first_unknown<A: Allocator, N: Named>(own: &[String<A>], names: &[N]) -> Option<usize>
    ensures { MatchOption result (All (IsKnown (map string_bytes own.now)) (map N.named names.now))
        (IsFirstUnknown (map string_bytes own.now) (map N.named names.now)) }
{
    for place in 0..names.len() {
        if place_of(own, names[place].name()).is_none() {
            return Some(place);
        }
    }
    None
}

/// Returns copies of names. Refused only as `OutOfMemory`.
pub(crate) fn copies_of<A: Allocator + Copy>(
    alloc: A,
    names: &[String<A>],
) -> VortexResult<Vec<String<A>, A>>
    ensures only { IsOkUnless result VortexError.OutOfMemory }
    ensures names { IfOk result (λ copies. map string_bytes copies.items ≡ map string_bytes names.now) }
{
    let mut copies = Vec::with_capacity(alloc, names.len())?;
    for name in names {
        let copy = String::from_str(alloc, name.as_str())?;
        copies.push_reserved(copy);
    }
    Ok(copies)
}

/// Returns each name, or the new name at its place among `names` where it is one of them. Refused only as
/// `OutOfMemory`.
pub(crate) fn renamed<A: Allocator + Copy>(
    alloc: A,
    own: &[String<A>],
    names: &[String<A>],
    new_names: &[String<A>],
) -> VortexResult<Vec<String<A>, A>>
    requires paired { length names.now ≡ length new_names.now }
    ensures only { IsOkUnless result VortexError.OutOfMemory }
    ensures renamed { IfOk result (λ made. AllZip
        (IsRenamedTo (map string_bytes names.now) (map string_bytes new_names.now)) (map string_bytes own.now)
        (map string_bytes made.items)) }
{
    let mut made = Vec::with_capacity(alloc, own.len())?;
    for name in own {
        let copy = String::from_str(alloc, new_name_of(name, names, new_names).as_str())?;
        made.push_reserved(copy);
    }
    Ok(made)
}

// The new name at the place of a name, or the name where it is none of those that get one.
fn new_name_of<'a, A: Allocator>(
    name: &'a String<A>,
    names: &[String<A>],
    new_names: &'a [String<A>],
) -> &'a String<A>
    requires paired { length names.now ≡ length new_names.now }
    ensures { IsRenamedTo (map string_bytes names.now) (map string_bytes new_names.now) (string_bytes name.now)
        (string_bytes result.now) }
{
    match place_of(names, name.as_str()) {
        Some(place) => &new_names[place],
        None => name,
    }
}
