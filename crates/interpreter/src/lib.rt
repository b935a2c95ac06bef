//! Carries out the lines of a script on a simulation, and makes the text of what happens.
//!
//! It stands between `simulation`, which knows events and no lines, and the program, which reads lines and writes
//! bytes. `specs/` has `Story` (which lines are allowed and what each does, as events of a run), `Text` and `EventText`
//! (what is printed), and `Steps` (what happened from one moment of an interpreter to another). `interpreter` is the
//! value with its limits, `events` carries out one event each with its line, `lines` a whole line, `text` prints. Its
//! one contract is that of `carry_out`: the events of the line happened, in whatever run the simulation showed before,
//! and just their text was added; where it is halted that holds of a beginning of the line, and the halt says why; and
//! either way each stop that the text tells is paid (`Payments`). In plain words it is in `docs/FORMATS.md`, "Lines
//! carried out".
#![tactic(auto)]

mod effects;
mod events;
mod interpreter;
mod lines;
mod text;

pub use interpreter::{Halt, Interpreter};
