//! The command `check`: what it prints of a configuration.
ghost use Rattle.std.specs.Prelude.{◌≡◌, IfOk, length, map, string_bytes};
ghost use Rattle.gate_config.specs.Generations.{bytes_of};
ghost use Rattle.gate_main_command.specs.Printed.{Checks, ChecksSome, generations_text};

use crate::fault::Fault;
use crate::files::read_files;
use gate_config::{Generations, check_text, read_generations};
use std::alloc::Global;
use std::rt::Files;

/// What `check` prints of the configuration in these files, of which each is a generation: what each of them says, one after another. The
/// fault is `File` for a file that can't be read, or that of the documents.
pub fn check_files<X: Files + AllocGlobal>(rt: &X, config: Vec<String>) -> Result<String, Fault>
    ensures { IfOk result (λ text. ChecksSome (length config.items) (string_bytes text)) }
{
    let documents = read_files(rt, config)?;
    check(rt.alloc(), documents.as_slice())
}

// The text of all generations of a configuration, one after another.
fn check(alloc: Global, documents: &[Vec<u8>]) -> Result<String, Fault>
    ensures { IfOk result (λ text. Checks (map bytes_of documents.now) (string_bytes text)) }
{
    let gens = read_generations(alloc, documents)?;
    text_of(alloc, &gens)
}

fn text_of(alloc: Global, gens: &Generations) -> Result<String, Fault>
    ensures { IfOk result (λ text. string_bytes text ≡ generations_text gens.now) }
{
    let mut text = String::new(alloc);
    for g in 0..gens.count() {
        let said = check_text(alloc, gens.generation(g))?;
        text.push_str(said.as_str())?;
    }
    Ok(text)
}
