//! The texts that words ask for.

ghost use Rattle.std.specs.Prelude.{◌≡◌, ◌≤◌};
ghost use Rattle.tp_outside.specs.Streams.{TakesPrefix};
ghost use Rattle.commands.specs.Performs.{Shown};
ghost use Rattle.commands.specs.Texts.{help_text, version_text};

use front_end::outcomes::Outcome;
use tp_outside::{Sink, write_all};

/// What words there are.
#[tactic(auto, unfolding(crate::specs::Texts::help_text))]
pub fn help_text() -> &'static str
    ensures { result.now ≡ help_text }
{
    "Usage: tp go NAME [--buffer P] [--limit N] [--retry P]\n\
     \x20      tp mean NAME [--turns N]\n\
     \x20      tp run NAME [--buffer P] [--limit N] [--retry P]\n\
     \x20      tp --help\n\
     \x20      tp --version\n\n\
     go   reads name.pas and its units, writes name.exe, with name.ovr if it has\n\
     \x20    overlays, and runs it\n\
     mean reads name.pas and its units, and shows what the program means\n\
     run  runs name.exe, with name.ovr if it has overlays\n\n\
     The program reads standard input, which Ctrl-D ends at a terminal; mean\n\
     reads it to its end before the program begins.\n\n\
     --buffer P  the overlay buffer in paragraphs of 16 bytes, up to 40960\n\
     \x20           (default: as large as the largest overlay)\n\
     --limit N   stop after N instructions (default: 1000000000)\n\
     --turns N   stop after N turns of loops and calls (default: 1000000)\n\
     --retry P   keep up to P paragraphs of overlays in use (default: 0)\n\n\
     The exit status is that of the program. Where it did not end by itself,\n\
     a line on standard error says why, and the status is 249 for an act that\n\
     the language leaves open, 250 and 251 at the limits, 252 for a refusal,\n\
     253 where the machine stopped, 254 for a fault of a file or a stream, and\n\
     255 for want of memory.\n\n\
     docs/usage.md says what each line means and what helps, docs/language.md\n\
     what the language is, and examples/ has programs.\n"
}

/// Which version this is, and the toolchain that proves and builds it.
#[tactic(auto, unfolding(crate::specs::Texts::version_text))]
pub fn version_text() -> &'static str
    ensures { result.now ≡ version_text }
{
    "tp 0.1, proved and built by rattle-kit-13f\n"
}

/// Writes a text to the output.
pub fn show<K: Sink>(output: &mut K, text: &str) -> Outcome
    ensures shown { Shown result text.now (K.contents output.old) (K.contents output.new) (K.faults output.old) (K.faults output.new) }
    ensures front { TakesPrefix (K.contents output.old) (K.contents output.new) text.now }
{
    match write_all(output, text.as_bytes()) {
        Ok(()) => Outcome::Done,
        Err(_) => Outcome::OutputFault,
    }
}
