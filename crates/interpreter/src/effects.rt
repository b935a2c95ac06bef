//! The lines of a run's effects.
ghost use Rattle.std.specs.Prelude.{◌≡◌, ◌++◌, IfOk, OnOk, Some};
ghost use Rattle.std.specs.List.{slice_get};
ghost use Rattle.message_store.specs.declared.made.Made.{Made};
ghost use Rattle.pasts.specs.Fuses.{seen_by, images_by};
ghost use Rattle.simulation.specs.Runs.{RunV};
ghost use Rattle.simulation.specs.Shows.{Shows};
ghost use Rattle.interpreter.specs.EventText.{effects_text};
ghost use Rattle.interpreter.specs.Payments.{TellsNoStop};
ghost use Rattle.interpreter.specs.Text.{effect_of};

use crate::interpreter::Interpreter;
use crate::text::print_effect;
use mds_out::Disk;
use message_store::Made;
use script::LineText;
use std::alloc::{AllocError, Global};

impl<D: Disk> Interpreter<D> {
    /// The lines of the effects, in their order (`docs/FORMATS.md`, "Text").
    pub fn effects(&self, alloc: Global) -> Result<Vec<u8>, AllocError>
        ensures shown { IfOk result
            (λ text. (run : RunV) → Shows (seen_by D.seen) (images_by D.images) self.now.simulation run
            → text.items ≡ effects_text run.trace.past) }
        ensures quiet { IfOk result (λ text. TellsNoStop text.items) }
    {
        let mut text = Vec::new(alloc);
        let mut line = LineText::new();
        for at in 0..self.simulation.made_len() {
            self.add_effect(alloc, &mut text, &mut line, at)?;
        }
        Ok(text)
    }

    // Adds the line of the entry at a place, where it is an effect. `line` is written over.
    fn add_effect(
        &self,
        alloc: Global,
        text: &mut Vec<u8>,
        line: &mut LineText,
        at: usize,
    ) -> Result<(), AllocError>
        ensures { OnOk result
            ((made : Made) → slice_get self.now.simulation.made at ≡ Some made
            → text.new.items ≡ text.old.items ++ effect_of self.now.simulation made) }
    {
        let Some(made) = self.simulation.made(alloc, at)? else {
            return Ok(());
        };
        self.add_line(text, line, &made)
    }

    // Adds the line of an entry that was made, where it is an effect. `line` is written over.
    fn add_line(
        &self,
        text: &mut Vec<u8>,
        line: &mut LineText,
        made: &Made,
    ) -> Result<(), AllocError>
        ensures { OnOk result
            (text.new.items ≡ text.old.items ++ effect_of self.now.simulation made.now) }
    {
        if self.simulation.stands(made) {
            line.clear();
            print_effect(line, &made.entry);
            text.extend_from_slice(line.bytes())?;
        }
        Ok(())
    }
}
