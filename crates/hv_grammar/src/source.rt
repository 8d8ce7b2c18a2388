//! Lines that come one after another.

ghost use Rattle.std.specs.Prelude.{◌≡◌};
ghost use Rattle.hv_grammar.specs.Positions.{Advances, CanRead, Position};

use hv_bytes::{LineFault, Next};

/// Lines of a file, one after another. `position` is where it stands.
pub trait Source {
    ghost position: { Self → Position };

    /// Asks for the next line, which `line` then gives.
    fn advance(&mut self) -> Result<Next, LineFault>
        requires { CanRead (position self.old) }
        ensures { Advances (position self.old) (position self.new) result };

    /// The line given last, without its LF.
    fn line(&self) -> &[u8]
        ensures { result.now ≡ (position self.now).lines.line };

    /// The number of the line given last, from 1.
    fn number(&self) -> u64
        ensures { result ≡ (position self.now).lines.number };
}
