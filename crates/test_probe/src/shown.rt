//! Values as an answer shows them.

use crate::prelude::*;
use mysql_wire::FlagWord;
use std::borrow::CowStr;
use std::fmt::{Debug, Display};

/// A value that an answer shows.
pub trait Shown {
    /// Adds it to the last word.
    fn shown(self, out: &mut Out);
}

/// A number, which is shown in digits.
pub trait Number: Display + Copy {}

impl Number for u8 {}

impl Number for u16 {}

impl Number for u32 {}

impl Number for u64 {}

impl Number for usize {}

impl<N: Number> Shown for N {
    fn shown(self, out: &mut Out) {
        out.display(&self);
    }
}

/// The bits.
impl<N, B: Shown + Drop> Shown for FlagWord<N, B> {
    fn shown(self, out: &mut Out) {
        self.0.shown(out);
    }
}

impl Shown for bool {
    fn shown(self, out: &mut Out) {
        out.push(if self { "yes" } else { "no" });
    }
}

/// A word.
impl Shown for &str {
    fn shown(self, out: &mut Out) {
        out.push(self);
    }
}

/// `x` and hexadecimal digits.
impl Shown for &[u8] {
    fn shown(self, out: &mut Out) {
        out.push("x");
        out.push_made(hex::encode(out.alloc(), self));
    }
}

impl<const N: usize> Shown for [u8; N] {
    fn shown(self, out: &mut Out) {
        self.as_slice().shown(out);
    }
}

/// The bytes of a text.
impl Shown for CowStr<'_> {
    fn shown(self, out: &mut Out) {
        self.as_str().as_bytes().shown(out);
    }
}

/// A value of an enum, by the name of its variant, with which its debug form begins.
#[derive(Drop)]
pub struct Variant<'v, T>(pub &'v T);

impl<T: Debug> Shown for Variant<'_, T> {
    fn shown(self, out: &mut Out) {
        let value = self.0;
        let Ok(text) = format!(in out.alloc(); "{value:?}") else {
            return out.lose();
        };
        let name = text.as_str().split(' ').next().unwrap_or("");
        out.push(name.split('(').next().unwrap_or(""));
    }
}

/// The value, or `none`.
impl<T: Shown + Drop> Shown for Option<T> {
    fn shown(self, out: &mut Out) {
        match self {
            Some(value) => value.shown(out),
            None => out.push("none"),
        }
    }
}

/// What a call made, or that memory ran out.
impl<T: Shown + Drop> Shown for Result<T> {
    fn shown(self, out: &mut Out) {
        match self {
            Ok(value) => value.shown(out),
            Err(AllocError) => out.push("Memory"),
        }
    }
}

/// Adds the fields of a record by its getters, as `name` or `name = getter`; after `texts`, by getters that take memory.
///
/// After `alike` it adds nothing, and is whether two records have the same fields: `name` of the one, and with `getter` that of
/// the other.
#[macro_export]
macro_rules! fields {
    (@get $record:expr, $name:ident) => { $record.$name() };
    (@get $record:expr, $name:ident $getter:ident) => { $record.$getter() };
    ($one:expr, $other:expr; alike $($name:ident $(with $getter:ident)?),*) => {
        true $(&& $one.$name() == $crate::fields!(@get $other, $name $($getter)?))*
    };
    ($out:expr, $record:expr; $($name:ident $(= $getter:ident)?),* $(; texts $($text:ident = $taken:ident),*)?) => {{
        $($out.show(stringify!($name), $crate::fields!(@get $record, $name $($getter)?));)*
        $($(
            let alloc = $out.alloc();
            $out.show(stringify!($text), $crate::counted!(alloc; $record.$taken(alloc)));
        )*)?
    }};
}

/// Adds the size that each of these types has, or `none` where it varies.
#[macro_export]
macro_rules! sizes {
    ($out:expr; $($type:ty),*) => {
        for (name, size) in [$((stringify!($type), <$type as MyDeserialize>::SIZE)),*] {
            $out.show(name, size);
        }
    };
}
