//! What is written as JSON.

ghost use Rattle.std.specs.Prelude.{◌≡◌, ◌≤◌, IfOk, OnOk, option_map, string_bytes};
ghost use Rattle.serde_json.specs.Data.{Data, Members, boolean, member, no_members, object, string};
ghost use Rattle.serde_json.specs.Events.{members_len};
ghost use Rattle.serde_json.specs.Read.{max_depth};
ghost use Rattle.olr_base.specs.Coordinates.{coordinates_of};
ghost use Rattle.olr_text.specs.JsonValues.{IsJsonLine, IsJsonText, NestsWithin, array_of};
ghost use Rattle.olr_text.specs.JsonValues.{coordinates_array, count_if, integer, maybe_member, or_null, whole};
ghost use Rattle.olr_text.specs.Sent.{AreOrdered, Sends, SendsMembers};

use arrayvec::{ArrayString, ArrayVec};
use olr_base::{Degrees, NoMemory};
use serde::{Described, Serialize, Serializer};
use std::alloc::Global;

/// What is written as JSON with an `On` at hand. Where lines of a map are written it is the map,
/// which has their ids.
pub trait ToJson<On> {
    // The value that is written.
    ghost value: { On → Self → Data };

    /// Sends the value to a serializer, event by event.
    ///
    /// # Errors
    ///
    /// Those of the serializer.
    fn send<S: Serializer>(&self, on: &On, out: &mut S) -> Result<(), S::Error>
        ensures { OnOk result
            (Sends (value on.now self.now) (S.written out.old) (S.written out.new)) };
}

impl<On> ToJson<On> for bool {
    ghost value = { λ _ holds. boolean holds };

    fn send<S: Serializer>(&self, _on: &On, out: &mut S) -> Result<(), S::Error> {
        out.bool(*self)
    }
}

impl<On> ToJson<On> for u8 {
    ghost value = { λ _ number. whole number };

    fn send<S: Serializer>(&self, _on: &On, out: &mut S) -> Result<(), S::Error> {
        out.u64(u64::from(*self))
    }
}

impl<On> ToJson<On> for u16 {
    ghost value = { λ _ number. whole number };

    fn send<S: Serializer>(&self, _on: &On, out: &mut S) -> Result<(), S::Error> {
        out.u64(u64::from(*self))
    }
}

impl<On> ToJson<On> for u32 {
    ghost value = { λ _ number. whole number };

    fn send<S: Serializer>(&self, _on: &On, out: &mut S) -> Result<(), S::Error> {
        out.u64(u64::from(*self))
    }
}

impl<On> ToJson<On> for u64 {
    ghost value = { λ _ number. whole number };

    fn send<S: Serializer>(&self, _on: &On, out: &mut S) -> Result<(), S::Error> {
        out.u64(*self)
    }
}

impl<On> ToJson<On> for usize {
    ghost value = { λ _ number. whole number };

    fn send<S: Serializer>(&self, _on: &On, out: &mut S) -> Result<(), S::Error> {
        out.u64(*self as u64)
    }
}

impl<On> ToJson<On> for i32 {
    ghost value = { λ _ number. integer number };

    fn send<S: Serializer>(&self, _on: &On, out: &mut S) -> Result<(), S::Error> {
        if *self < 0 {
            out.i64(i64::from(*self))
        } else {
            out.u64(u64::from(self.unsigned_abs()))
        }
    }
}

impl<On> ToJson<On> for &str {
    ghost value = { λ _ text. string text.now };

    fn send<S: Serializer>(&self, _on: &On, out: &mut S) -> Result<(), S::Error> {
        out.str(*self)
    }
}

impl<On, const N: usize> ToJson<On> for ArrayString<N> {
    ghost value = { λ _ text. string text.bytes };

    fn send<S: Serializer>(&self, _on: &On, out: &mut S) -> Result<(), S::Error> {
        out.str(self.as_str())
    }
}

/// The pair of coordinates in microdegrees, longitude first.
impl<On> ToJson<On> for Degrees {
    ghost value = { λ _ at. coordinates_array (coordinates_of at) };

    fn send<S: Serializer>(&self, on: &On, out: &mut S) -> Result<(), S::Error> {
        out.begin_seq(Some(2))?;
        self.lon.send(on, out)?;
        self.lat.send(on, out)?;
        out.end_seq()
    }
}

impl<On, T: ToJson<On>> ToJson<On> for Option<T> {
    ghost value = { λ on option. or_null (T.value on) option };

    fn send<S: Serializer>(&self, on: &On, out: &mut S) -> Result<(), S::Error> {
        match self {
            Some(value) => value.send(on, out),
            None => out.unit(),
        }
    }
}

impl<On, T: ToJson<On>> ToJson<On> for &[T] {
    ghost value = { λ on list. array_of (T.value on) list.now };

    fn send<S: Serializer>(&self, on: &On, out: &mut S) -> Result<(), S::Error> {
        send_array(*self, on, out)
    }
}

impl<On, T: ToJson<On>> ToJson<On> for Vec<T> {
    ghost value = { λ on list. array_of (T.value on) list.items };

    fn send<S: Serializer>(&self, on: &On, out: &mut S) -> Result<(), S::Error> {
        send_array(self, on, out)
    }
}

impl<On, T: ToJson<On>, const N: usize> ToJson<On> for ArrayVec<T, N> {
    ghost value = { λ on list. array_of (T.value on) list.items };

    fn send<S: Serializer>(&self, on: &On, out: &mut S) -> Result<(), S::Error> {
        send_array(self, on, out)
    }
}

/// Sends an array of these.
fn send_array<On, T: ToJson<On>, S: Serializer>(
    list: &[T],
    on: &On,
    out: &mut S,
) -> Result<(), S::Error>
    ensures { OnOk result (Sends (array_of (T.value on.now) list.now)
        (S.written out.old) (S.written out.new)) }
{
    out.begin_seq(Some(list.len()))?;
    for value in list {
        value.send(on, out)?;
    }
    out.end_seq()
}

/// The members of an object, in the order of their names.
pub trait ToMembers<On> {
    // The members that are written.
    ghost members: { On → Self → Members };

    /// Sends the members, and the end of the object.
    ///
    /// # Errors
    ///
    /// Those of the serializer.
    fn send_members<S: Serializer>(&self, on: &On, out: &mut S) -> Result<(), S::Error>
        ensures { OnOk result
            (SendsMembers (members on.now self.now) (S.written out.old) (S.written out.new)) };
}

impl<On> ToMembers<On> for () {
    ghost members = { λ _ _. no_members };

    fn send_members<S: Serializer>(&self, _on: &On, out: &mut S) -> Result<(), S::Error> {
        out.end_map()
    }
}

/// A member of an object, and those behind it.
#[derive(Clone, Copy)]
pub struct Member<'a, T, M> {
    pub name: &'a str,
    pub value: &'a T,
    pub others: M,
}

impl<On, T: ToJson<On>, M: ToMembers<On>> ToMembers<On> for Member<'_, T, M> {
    ghost members = { λ on self. member self.name.now (T.value on self.value.now)
        (M.members on self.others) };

    fn send_members<S: Serializer>(&self, on: &On, out: &mut S) -> Result<(), S::Error> {
        out.key(self.name)?;
        self.value.send(on, out)?;
        self.others.send_members(on, out)
    }
}

/// A member that an object has where there is a value, and those behind it.
#[derive(Clone, Copy)]
pub struct MaybeMember<'a, T, M> {
    pub name: &'a str,
    pub value: &'a Option<T>,
    pub others: M,
}

impl<On, T: ToJson<On>, M: ToMembers<On>> ToMembers<On> for MaybeMember<'_, T, M> {
    ghost members = { λ on self. maybe_member self.name.now
        (option_map (T.value on) self.value.now) (M.members on self.others) };

    fn send_members<S: Serializer>(&self, on: &On, out: &mut S) -> Result<(), S::Error> {
        if let Some(value) = self.value {
            out.key(self.name)?;
            value.send(on, out)?;
        }
        self.others.send_members(on, out)
    }
}

/// How many members this is: one, or none.
pub fn count_if<T>(value: &Option<T>) -> usize
    ensures count { result ≡ count_if value.now }
    ensures at_most { result ≤ 1 }
{
    match value {
        Some(_) => 1,
        None => 0,
    }
}

/// Sends an object, of so many members. [`send_object!`] writes the call.
///
/// # Errors
///
/// Those of the serializer.
pub fn send_counted<On, M: ToMembers<On>, S: Serializer>(
    count: usize,
    members: &M,
    on: &On,
    out: &mut S,
) -> Result<(), S::Error>
    requires count { count ≡ members_len (M.members on.now members.now) }
    requires ordered { AreOrdered (M.members on.now members.now) }
    ensures { OnOk result (Sends (object (M.members on.now members.now))
        (S.written out.old) (S.written out.new)) }
{
    out.begin_map(Some(count))?;
    members.send_members(on, out)
}

/// Sends an object, as `send_object!(on, out, { "at": at, "line": line, "spot"?: spot })`, with its
/// members in the order of their names. A member with `?` is there where its option, which a
/// variable holds, has a value.
#[macro_export]
macro_rules! send_object {
    ($on:expr, $out:expr, { $($members:tt)+ }) => {
        $crate::send_counted(
            $crate::count_of!($($members)+),
            &$crate::members!($($members)+),
            $on,
            $out,
        )
    };
}

/// How many these are.
#[macro_export]
macro_rules! count_of {
    () => { 0 };
    ($name:literal: $value:expr) => { 1 };
    ($name:literal?: $value:expr) => { $crate::count_if(&$value) };
    ($name:literal: $value:expr, $($others:tt)*) => { 1 + $crate::count_of!($($others)*) };
    ($name:literal?: $value:expr, $($others:tt)*) => {
        $crate::count_if(&$value) + $crate::count_of!($($others)*)
    };
}

/// The members of these names and values.
#[macro_export]
macro_rules! members {
    () => { () };
    ($name:literal: $value:expr) => { $crate::members!($name: $value,) };
    ($name:literal?: $value:expr) => { $crate::members!($name?: $value,) };
    ($name:literal: $value:expr, $($others:tt)*) => {
        $crate::Member { name: $name, value: &$value, others: $crate::members!($($others)*) }
    };
    ($name:literal?: $value:expr, $($others:tt)*) => {
        $crate::MaybeMember { name: $name, value: &$value, others: $crate::members!($($others)*) }
    };
}

/// What is written, with what it is on.
#[derive(Clone, Copy)]
struct Shown<'a, On, T: ToJson<On>> {
    on: &'a On,
    value: &'a T,
}

impl<On, T: ToJson<On>> Described for Shown<'_, On, T> {
    ghost writes = { λ shown. Sends (T.value shown.on.now shown.value.now) };
}

impl<On, T: ToJson<On>> Serialize for Shown<'_, On, T> {
    fn serialize<S: Serializer>(&self, out: &mut S) -> Result<(), S::Error> {
        self.value.send(self.on, out)
    }
}

/// The JSON of a value: its compact text, with the members of each object in the order of their
/// names.
///
/// # Errors
///
/// [`NoMemory`] where the allocator refused memory.
pub fn to_json_text<On, T: ToJson<On>>(
    alloc: Global,
    on: &On,
    value: &T,
) -> Result<String, NoMemory>
    requires { NestsWithin max_depth (T.value on.now value.now) }
    ensures { IfOk result (λ text. IsJsonText (T.value on.now value.now) (string_bytes text)) }
{
    let Ok(text) = serde_json::to_string(alloc, &Shown { on, value }) else {
        return Err(NoMemory);
    };
    Ok(text)
}

/// The line of JSON of a value: its text, and a line feed.
///
/// # Errors
///
/// [`NoMemory`] where the allocator refused memory.
pub fn to_json_line<On, T: ToJson<On>>(
    alloc: Global,
    on: &On,
    value: &T,
) -> Result<String, NoMemory>
    requires { NestsWithin max_depth (T.value on.now value.now) }
    ensures { IfOk result (λ line. IsJsonLine (T.value on.now value.now) (string_bytes line)) }
{
    let mut line = to_json_text(alloc, on, value)?;
    line.push('\n')?;
    Ok(line)
}
