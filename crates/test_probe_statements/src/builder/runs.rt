//! Runs that are broken off, over inputs that may answer `None` between their items.

use crate::builder::Session;
use crate::builder::answers::show_built;
use crate::prelude::*;
use std::cell::Cell;
use std::rc::Rc;

/// Gives its answers in turn, and counts how often it is asked.
#[derive(Drop)]
struct Odd<T> {
    /// The last one first.
    answers: Vec<Option<T>>,
    asked: Rc<Cell<u32>>,
}

impl<T: Drop> Iterator for Odd<T> {
    type Item = T;

    ghost use Rattle.std.specs.Iterator.{at_most};
    ghost use Rattle.std.specs.Prelude.{length};

    ghost remaining = { λ s. at_most (length s.answers.items) };

    fn next(&mut self) -> Option<T> {
        self.asked.set(self.asked.get().saturating_add(1));
        self.answers.pop().flatten()
    }
}

/// Shows a run over the input that follows a count of calls, and how often the input was asked; and puts the row that the
/// run carried into a place.
macro_rules! run {
    ($out:expr, $carried:expr, $argument:expr; $input:ident => $run:expr) => {{
        let (count, input) = $argument.split_once(':').unwrap_or(("0", $argument));
        let mut answers = list($out, input, "", '/');
        answers.reverse();
        let asked = Rc::new($out.alloc(), Cell::new(0))?;
        let $input = Odd { answers, asked: asked.clone()? };
        let mut run = $run;
        for _ in 0..count.parse::<u8>().unwrap_or(0) {
            match counted!($out.alloc(); value run.next()) {
                Some(built) => show_built($out, built),
                None => $out.word("None"),
            }
        }
        $carried = counted!($out.alloc(); value run.into_carried());
        $out.show("asked", asked.get());
        $out.show("carried", $carried.as_ref().map(SpelledRow));
        Ok(())
    }};
}

/// A run over rows.
pub fn run_of_rows(out: &mut Out, session: &mut Session<'_>, argument: &str) -> Result {
    run!(out, session.carried, argument; input => session.builder.build_iter(input))
}

/// The same of a run over parameters.
pub fn run_of_params(out: &mut Out, session: &mut Session<'_>, argument: &str) -> Result {
    run!(out, session.carried, argument; input => session.builder.build_params_iter(input))
}
