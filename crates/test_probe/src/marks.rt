//! Which growths of memory are counted.
//!
//! Sizes that nothing else asks for tell the allocator that stands in front of the C library's, where one does, that a
//! line begins of which a growth is to be refused, and that the growths between two marks are meant. Each is given back
//! at once.

use std::alloc::Global;

/// A line begins of which growth 0 (none), 1, .. is to be refused: this size, and a given number of bytes more.
const LINE: usize = 0x5e000;

const START: usize = 0x5fff1;

const STOP: usize = 0x5fff2;

/// From here on the growth of that number is to be refused.
pub fn line(alloc: Global, growth: u16) {
    let _ = Vec::<u8>::with_capacity(alloc, LINE + usize::from(growth % 0x1000));
}

/// From here on growths are counted.
pub fn start(alloc: Global) {
    let _ = Vec::<u8>::with_capacity(alloc, START);
}

/// From here on growths are let through.
pub fn stop(alloc: Global) {
    let _ = Vec::<u8>::with_capacity(alloc, STOP);
}

/// Makes a call that answers a `Result`, with its growths counted; after `value`, one that answers something else.
#[macro_export]
macro_rules! counted {
    ($alloc:expr; value $call:expr) => {{
        $crate::marks::start($alloc);
        let answer = $call;
        $crate::marks::stop($alloc);
        answer
    }};
    ($alloc:expr; $call:expr) => {{
        $crate::marks::start($alloc);
        let answer: Result<_, _> = $call;
        $crate::marks::stop($alloc);
        answer
    }};
}
