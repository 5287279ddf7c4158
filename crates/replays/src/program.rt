// What the programs have in common: reading their input, and how they end.
ghost use Rattle.std.specs.Prelude.{◌≡◌, IfOk, IfSome, IsNone, OnErr, OnOk};
ghost use Rattle.std.specs.Process.{exit_status};

use anyhow::anyhow;
use std::fs;
use std::io::Read;
use std::process::ExitCode;
use std::rt::Files;

// What the file of this path holds or, where none is named, what the input gives up to its end.
pub fn read_input<R: Files + AllocGlobal, I: Read>(
    rt: &R,
    path: Option<&str>,
    input: &mut I,
) -> anyhow::Result<Vec<u8>>
    ensures { IsNone path.entry → IfOk result (λ bytes. IfSome (I.remaining input.old) (λ given. bytes.items ≡ given)) }
{
    if let Some(path) = path {
        return fs::read(rt, path).map_err(|error| anyhow!("{path}: {error}"));
    }
    let mut bytes = Vec::new(rt.alloc());
    input.read_to_end(&mut bytes)?;
    Ok(bytes)
}

// How the program of this name ends; if it failed, that is told with the reason on standard error.
pub fn exit_code<R: Eprint>(rt: &R, program: &str, outcome: anyhow::Result<()>) -> ExitCode
    ensures done { OnOk outcome (exit_status result ≡ 0) }
    ensures failed { OnErr outcome (exit_status result ≡ 1) }
{
    match outcome {
        Ok(()) => ExitCode::SUCCESS,
        Err(error) => {
            let _ = eprintln!(rt; "{program}: {error}");
            ExitCode::FAILURE
        }
    }
}
