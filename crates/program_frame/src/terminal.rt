//! Whether lines are shown in colours.

ghost use Rattle.std.specs.Prelude.{◌≡◌};
ghost use Rattle.program_frame.specs.Terminals.{allows_colours, is_dumb, is_set};

use std::env;
use std::env::VarError;
use std::io::IsTerminal;

/// The terminal type without colours.
const DUMB: &str = "dumb";

/// The value of an environment variable, or why there is none.
type Variable = Result<String, VarError>;

/// Whether to show lines in colours: on a terminal, unless the environment has a `NO_COLOR` that
/// isn't empty (no-color.org) or the terminal type has no colours.
pub fn wants_colours(rt: &HostRuntime) -> bool {
    rt.stdout().is_terminal() && allows_colours(&env::var(rt, "NO_COLOR"), &env::var(rt, "TERM"))
}

/// Whether the environment allows colours, by its variables `NO_COLOR` and `TERM`.
fn allows_colours(no_color: &Variable, terminal: &Variable) -> bool
    ensures { result ≡ allows_colours no_color.now terminal.now }
{
    !is_set(no_color) && !is_dumb(terminal)
}

/// Whether the variable has a value that isn't empty. A value that isn't text counts as such.
fn is_set(variable: &Variable) -> bool
    ensures { result ≡ is_set variable.now }
{
    match variable {
        Ok(value) => !value.is_empty(),
        Err(VarError::NotPresent) => false,
        Err(VarError::NotUnicode | VarError::OutOfMemory) => true,
    }
}

fn is_dumb(terminal: &Variable) -> bool
    ensures { result ≡ is_dumb terminal.now }
{
    match terminal {
        Ok(name) => name.as_str() == DUMB,
        Err(_) => false,
    }
}
