//! The program over any host: its arguments, and the command that they are.
ghost use Rattle.std.specs.Prelude.{◌≡◌, [], drop, IfOk, IfErr, OnErr};
ghost use Rattle.std.specs.Vec.Iter.{into_iter_items};
ghost use Rattle.std.specs.Process.{exit_status};
ghost use Rattle.lufs_top.specs.Words.{command_of};
ghost use Rattle.lufs_top.specs.Run.{Runs};

use host_io::Host;
use lufs_top::{NO_MEMORY, run};
use std::alloc::{AllocError, Global};
use std::env::Args;
use std::io;
use std::process::ExitCode;

// The arguments, the program's name first.
fn listed(alloc: Global, args: Args) -> Result<Vec<String>, AllocError>
    ensures { IfOk result (λ listed. listed.items ≡ into_iter_items args) }
{
    let mut listed = Vec::new(alloc);
    for word in args {
        listed.push(word)?;
    }
    Ok(listed)
}

/// The program's arguments. Where they can't be read, for example since one isn't UTF-8, the list is empty; where
/// memory ran out, that is the error.
pub fn arguments(alloc: Global, args: io::Result<Args>) -> Result<Vec<String>, AllocError>
    ensures read { IfOk args (λ args. IfOk result (λ listed. listed.items ≡ into_iter_items args)) }
    ensures unread { IfErr args (λ _. IfOk result (λ listed. listed.items ≡ [])) }
{
    match args {
        Ok(args) => listed(alloc, args),
        Err(error) if error.kind() == io::ErrorKind::OutOfMemory => Err(AllocError),
        Err(_) => Ok(Vec::new(alloc)),
    }
}

// The words, which are after the program's name.
fn words(arguments: &[String]) -> &[String]
    ensures { result.now ≡ drop 1 arguments.now }
{
    match arguments {
        [] => &[],
        [_name, words @ ..] => words,
    }
}

/// The program over a host: runs the command of its arguments, and answers the status to exit with
/// (`docs/FORMAT.md`, "Statuses"). Where there was no memory for the arguments, it does nothing.
pub fn program<H: Host>(
    alloc: Global,
    host: &mut H,
    arguments: Result<Vec<String>, AllocError>,
) -> ExitCode
    ensures ran { IfOk arguments (λ listed. Runs (command_of (drop 1 listed.items)) (exit_status result) (H.outside host.old) (H.outside host.new)) }
    ensures status_without_memory { OnErr arguments (exit_status result ≡ 12) }
    ensures undone_without_memory { OnErr arguments (H.outside host.new ≡ H.outside host.old) }
{
    match arguments {
        Ok(listed) => ExitCode::from(run(alloc, host, words(&listed))),
        Err(AllocError) => ExitCode::from(NO_MEMORY),
    }
}
