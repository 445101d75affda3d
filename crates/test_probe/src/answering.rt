//! Lines, and the answers to them.

use crate::marks;
use crate::prelude::*;
use std::fmt::Display;
use std::io;
use std::io::{BufRead, BufReader};

/// The requests that a program knows.
pub trait Answers {
    /// Adds the answer to a request, and says whether it is one of these.
    fn answer(out: &mut Out, request: &Request<'_>) -> bool;
}

/// What a call of a program leaves beside what it adds: nothing, or that the program ran out of memory.
pub trait Ends {
    fn end(self, out: &mut Out);
}

impl Ends for () {
    fn end(self, _out: &mut Out) {}
}

impl Ends for Result {
    fn end(self, out: &mut Out) {
        if self.is_err() {
            out.lose();
        }
    }
}

/// The answer to a name. The record that it stands for, of the context after `with`, is read and shown, written, and read again;
/// after `both` it is compared with one that stays in its packet too; or a call answers. Else it is false.
#[macro_export]
macro_rules! answers {
    ($shows:ty, $out:expr, $request:expr, $name:expr;
        $(with $context:expr => $($record:literal: $type:ty,)*)*
        $(both $beside:expr => $($owned:literal: $owned_type:ty, $place_type:ty,)*)*
        $(call $($called:literal: $call:path,)*)?) => {{
        match $name {
            $($($record => $crate::record::round_trip::<$shows, $type>($out, $request, $context, $context),)*)*
            $($($owned => $crate::places::both::<$shows, $owned_type, $place_type>($out, $request, $beside),)*)*
            $($($called => $crate::Ends::end($call($out, $request), $out),)*)?
            _ => return false,
        }
        true
    }};
}

/// Adds the text of an error, where the name is its own.
pub fn text_of<E: Display>(out: &mut Out, name: &str, own: &str, error: &E) -> bool {
    let is_own = name == own;
    if is_own {
        out.text("text", error);
    }
    is_own
}

/// Adds the text of the error whose path is the name. After `=` stands how it is made, where the path alone is none.
#[macro_export]
macro_rules! error_texts {
    (@made $error:path) => { $error };
    (@made $error:path, $made:expr) => { $made };
    ($out:expr, $name:expr; $($error:path $(= $made:expr)?,)*) => {{
        let mut is_known = false;
        $(is_known = $crate::text_of($out, $name, stringify!($error), &$crate::error_texts!(@made $error $(, $made)?)) || is_known;)*
        is_known
    }};
}

/// The answer to a line.
fn line<A: Answers>(alloc: Global, line: &str) -> Result<String> {
    let request = Request::of(alloc, line);
    let mut out = Out::new(alloc);
    if !A::answer(&mut out, &request) {
        out.word("unknown");
    }
    out.into_text()
}

/// The line without the number of the growth that is to be refused in it.
///
/// `@N` in front of a request says that an allocator which stands in front of the C library's refuses the N-th growth.
fn without_growth(alloc: Global, line: &str) -> &str {
    match line.strip_prefix('@') {
        Some(rest) => {
            let (number, request) = rest.split_once(' ').unwrap_or((rest, ""));
            marks::line(alloc, number.parse::<u16>().unwrap_or(0));
            request
        }
        None => line,
    }
}

/// Prints the answer to each line of the input.
pub fn run<A: Answers>(rt: &(impl Input + Print + AllocGlobal)) -> io::Result<()> {
    for text in BufReader::new(rt.alloc(), rt.reader())?.lines(rt.alloc()) {
        let text = text?;
        match line::<A>(rt.alloc(), without_growth(rt.alloc(), text.as_str())) {
            Ok(answer) => println!(rt; "{answer}")?,
            // (the work of the program itself: what it calls says `Memory`)
            Err(AllocError) => println!(rt; "out of memory")?,
        }
    }
    Ok(())
}
