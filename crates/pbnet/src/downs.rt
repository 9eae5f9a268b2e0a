//! The names of `--down` that are refused.

ghost use Rattle.std.specs.Prelude.{◌≡◌};
ghost use Rattle.std.specs.Process.{exit_status};

use crate::messages::complain;
use crate::telling::WRONG_ARGUMENTS;
use pb_converge::{DownFault, suggestion};
use pb_service::read_plan;
use std::alloc::Global;
use std::process::ExitCode;

/// Returns the name in the plan of a file that a wrong name probably means, if there is one and memory suffices.
fn suggestion_in(alloc: Global, file: &[u8], name: &str) -> Option<String> {
    let (plan, _ports) = read_plan(alloc, file).ok()?;
    suggestion(alloc, &plan, name).ok()?
}

/// Reports that the plan of a file lacks a name, and the name that was probably meant.
fn report_unknown(rt: &(impl Eprint + AllocGlobal), file: &[u8], name: &str) {
    let message = match suggestion_in(rt.alloc(), file, name) {
        Some(near) => {
            format!(in rt.alloc();
                "error: no link, bridge or port named \"{name}\"; did you mean \"{near}\"?"
            )
        }
        None => format!(in rt.alloc(); "error: no link, bridge or port named \"{name}\""),
    };
    complain(rt, message);
}

/// Reports on standard error why a name of `--down` is refused. Returns the exit status 2.
pub(crate) fn refuse_down(
    rt: &(impl Eprint + AllocGlobal),
    file: &[u8],
    downs: &[String],
    fault: DownFault,
) -> ExitCode
    ensures { exit_status result ≡ 2 }
{
    match fault {
        DownFault::Unknown(index) => {
            if let Some(name) = downs.get(index) {
                report_unknown(rt, file, name.as_str());
            }
        }
        DownFault::Ambiguous(index) => {
            if let Some(name) = downs.get(index) {
                let _ = eprintln!(rt;
                    "error: both a link and a bridge are named \"{name}\"; name ports as BRIDGE:PORT"
                );
            }
        }
    }
    ExitCode::from(WRONG_ARGUMENTS)
}
